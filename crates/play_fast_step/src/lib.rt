// A step of a vsync call, which is made once on the part that the call goes on with.
#![tactic(auto)]

ghost use Rattle.std.specs.Prelude.{◌≡◌, ◌≤◌};
ghost use Rattle.play_fast_step.specs.Step.{step_count, step_ending, step_to};

use base_format::{Part, Position};
use base_position::{between_at, onward_to};
use play_fast_part::PlayingPart;

// Whose writes a step makes: those of so many plain WRITEs; or so many records of WRITEs and FILLs, behind the `made` ones of the
// first of them.
#[derive(Clone, Copy)]
pub enum StepWrites {
    Plain(u32),
    Fills { made: u32, count: usize },
}

impl StepWrites {
    // How many they are.
    pub fn count(self) -> usize
        ensures { result ≡ step_count self }
    {
        match self {
            StepWrites::Plain(count) => count as usize,
            StepWrites::Fills { made: _, count } => count,
        }
    }
}

// What a call takes from a place on, whether the vsync is then complete, and where the player then is.
#[derive(Clone, Copy)]
pub struct Step {
    pub from: usize,
    pub writes: StepWrites,
    pub complete: bool,
    pub to: Position,
}

// The step that leaves no operation of the part. The call that ends the opening is not taken, because it goes on with frame 1.
#[tactic(auto, unfolding(crate::specs::Step::step_ending))]
fn step_to_end(playing: PlayingPart, cursor: usize, writes: StepWrites) -> Option<Step>
    ensures { result ≡ step_ending playing cursor writes }
{
    let at = playing.at;
    if at.part == Part::OPENING {
        return None;
    }
    Some(Step {
        from: at.cursor,
        writes,
        complete: true,
        to: between_at(cursor, at.frame_index),
    })
}

// The step that leaves so many operations of the part, the next one at a cursor with so many writes made.
#[tactic(auto, unfolding(crate::specs::Step::step_to))]
pub fn step_to(
    playing: PlayingPart,
    left: u32,
    cursor: usize,
    made: u32,
    writes: StepWrites,
) -> Option<Step>
    requires { left ≤ playing.at.operation_count }
    ensures { result ≡ step_to playing left cursor made writes }
{
    if left == 0 {
        return step_to_end(playing, cursor, writes);
    }
    let at = playing.at;
    let to = onward_to(at, cursor, at.operation_count - left, made);
    Some(Step {
        from: at.cursor,
        writes,
        complete: false,
        to,
    })
}
