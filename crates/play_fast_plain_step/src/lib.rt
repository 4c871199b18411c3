// The step of a vsync call that takes nothing but plain WRITEs of the part that it goes on with. Most calls are such; what is not
// taken here is for the steps of other operations, or for `play_plan`, to decide.
#![tactic(auto)]

ghost use Rattle.std.specs.Prelude.{◌≡◌, ◌≤◌, length};
ghost use Rattle.play_fast_plain_step.specs.PlainStep.{plain_step};

use base_next_part::operations_left;
use play_fast_part::PlayingPart;
use play_fast_plain::plain_behind;
use play_fast_step::{Step, StepWrites, step_to};

// The step of a call with room for so many records. An operation whose writes are begun is not passed.
#[tactic(auto, unfolding(crate::specs::PlainStep::plain_step))]
pub fn plain_step(file: &[u8], version: u8, playing: PlayingPart, room: usize) -> Option<Step>
    requires { playing.limit ≤ length file.now }
    ensures { result ≡ plain_step file.now version playing room }
{
    let at = playing.at;
    if at.write_index != 0 {
        return None;
    }
    let left = operations_left(at.operation_index, at.operation_count);
    let count = room.min(left as usize) as u32;
    let behind = plain_behind(file, version, playing.limit, count, at.cursor)?;
    if behind == 0 {
        return None;
    }
    step_to(playing, left - count, behind, 0, StepWrites::Plain(count))
}
