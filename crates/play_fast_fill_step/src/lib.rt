// The step of a vsync call that takes nothing but WRITEs and FILLs of the part that it goes on with, to any target. What is not taken
// here is for `play_plan` to decide, operation by operation.
#![tactic(auto)]

ghost use Rattle.std.specs.Prelude.{◌≡◌, ◌≤◌, length};
ghost use Rattle.base_format.specs.Card.{cards_of};
ghost use Rattle.play_fast_fill_step.specs.FillStep.{fill_step};

use base_format::CardTable;
use base_next_part::operations_left;
use bytes_read::byte_at;
use play_fast_fill::take_fills;
use play_fast_part::PlayingPart;
use play_fast_step::{Step, StepWrites, step_to};

// The step of a call with room for so many records. A part whose next operation is a COPY is not taken, before any table is made.
#[tactic(auto, unfolding(crate::specs::FillStep::fill_step), using(play_fast_fill::proofs::Steps::taken_fewer))]
pub fn fill_step(
    file: &[u8],
    version: u8,
    cards: CardTable,
    playing: PlayingPart,
    room: usize,
) -> Option<Step>
    requires { playing.limit ≤ length file.now }
    ensures { result ≡ fill_step file.now version (cards_of cards) playing room }
{
    let at = playing.at;
    let opcode = byte_at(file, at.cursor);
    if 1 < opcode {
        return None;
    }
    let left = operations_left(at.operation_index, at.operation_count);
    let Ok(fills) = take_fills(
        file,
        version,
        cards,
        playing.limit,
        left,
        room,
        at.cursor,
        at.write_index,
    ) else {
        return None;
    };
    let writes = StepWrites::Fills {
        made: at.write_index,
        count: room - fills.room,
    };
    step_to(playing, fills.left, fills.cursor, fills.writes, writes)
}
