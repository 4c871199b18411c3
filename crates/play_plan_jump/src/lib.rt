// The plan of a jump, by value: the file is checked as a start does, and the jump goes by what a start of it records.
#![tactic(auto)]

ghost use Rattle.std.specs.Prelude.{◌≡◌};
ghost use Rattle.base_format.specs.Jump.{jumped};
ghost use Rattle.base_format.specs.Rule.{answer_of};

use base_format::{Refusal, StreamPlayer};
use play_jump_accepted::plan_by;
use play_start::start;

// A jump on any state, with any file and index, to any frame number, counted from 1: the next state.
#[tactic(auto, using(base_format::proofs::Answered::passed_on, crate::proofs::By::planned_accepted, crate::proofs::By::planned_refused))]
pub fn plan_jump(
    state: StreamPlayer,
    file: &[u8],
    index: &[u8],
    frame: u32,
) -> Result<StreamPlayer, Refusal>
    ensures { answer_of result ≡ jumped state file.now index.now frame }
{
    let started = start(file);
    started.verdict?;
    plan_by(file, index, state, started.state, frame)
}
