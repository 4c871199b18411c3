// The plan of a jump in an accepted file, by value: the state and the index are held against what a start of the file records, and the
// frame's place is found by the index.
#![tactic(auto)]

ghost use Rattle.std.specs.Prelude.{◌≡◌};
ghost use Rattle.base_format.specs.Rule.{answer_of};
ghost use Rattle.play_jump_accepted.specs.Told.{jumped_by};

use base_format::{Refusal, Rule, StreamPlayer};
use base_refusal::refuse;
use base_state::{before_frame, moved};
use index_check::{frame_place, other_index};
use play_jump_belongs::jump_foreign;

// A jump in an accepted file whose start gives the state `recorded`: the next state.
#[tactic(auto, unfolding(crate::specs::Told::jumped_by), using(base_format::proofs::Answered::passed_on, base_format::proofs::Answered::refused_first))]
pub fn plan_by(
    file: &[u8],
    index: &[u8],
    state: StreamPlayer,
    recorded: StreamPlayer,
    frame: u32,
) -> Result<StreamPlayer, Refusal>
    ensures { answer_of result ≡ jumped_by state recorded file.now index.now frame }
{
    let header = recorded.header;
    let other = jump_foreign(file.len(), state, recorded);
    refuse(Rule::OtherFile, 0, other)?;
    refuse(Rule::OtherIndex, 0, other_index(file, header, index))?;
    refuse(
        Rule::NoFrame,
        0,
        (frame == 0) | (header.frame_count < frame),
    )?;
    let place = frame_place(file, header.version, index, frame);
    let progress = state.progress;
    Ok(moved(state, before_frame(progress, place, frame - 1)))
}
