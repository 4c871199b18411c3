// The second pass of a vsync call: its records are stored in the lent run, segment after segment.
#![tactic(auto)]

ghost use Rattle.std.specs.Prelude.{◌≡◌};
ghost use Rattle.play_store.specs.Stored.{stored_call};

use base_format::{StreamPlayer, WriteRecord};
use play_segments::next_segment;
use play_segments_first::first_place;
use play_store_segment::store_segment;

// The records of a call that takes `count` of them, in front of the run; no later record is touched. A turn that fills the room leaves
// nothing, so no range counts the turns.
pub fn store_call(run: &mut [WriteRecord], file: &[u8], state: StreamPlayer, count: usize)
    ensures { run.new ≡ stored_call file.now state count run.old }
{
    let mut place = first_place(file, state, count, run.len());
    while 0 < place.left {
        let turn = next_segment(file, state, place);
        store_segment(run, turn.at, file, turn.segment);
        place = turn.place;
    }
}
