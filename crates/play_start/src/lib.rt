// The start of a player, which is `from_bytes` of the original: the file is checked, and what its header says is recorded.
#![tactic(auto)]

ghost use Rattle.std.specs.Prelude.{◌≡◌};
ghost use Rattle.base_format.specs.Rule.{answer_of};
ghost use Rattle.base_format.specs.State.{started};
ghost use Rattle.base_format.specs.Stream.{read};
ghost use Rattle.play_start.specs.Start.{recorded_player, verdict_in};

use base_format::{Refusal, StreamPlayer};
use base_state::{refused_player, unplayed};
use check_file::{Recorded, check_file};

// The verdict on the file, and the player's state. A refused file gives a finished state with recorded size 0.
#[derive(Clone, Copy)]
pub struct Started {
    pub verdict: Result<(), Refusal>,
    pub state: StreamPlayer,
}

// The state of an accepted file.
fn recorded(found: Recorded) -> StreamPlayer
    ensures { result ≡ recorded_player found }
{
    StreamPlayer {
        header: found.header,
        cards: found.cards,
        uses_si22: found.uses_si22,
        progress: unplayed(false, found.header.frame_start),
    }
}

pub fn start(file: &[u8]) -> Started
    ensures { (answer_of result.verdict ≡ verdict_in (read file.now)) × (result.state ≡ started file.now) }
{
    match check_file(file) {
        Ok(found) => Started {
            verdict: Ok(()),
            state: recorded(found),
        },
        Err(refusal) => Started {
            verdict: Err(refusal),
            state: refused_player(),
        },
    }
}
