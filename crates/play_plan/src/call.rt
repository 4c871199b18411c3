// The plan of a call, by the part that is playing.
ghost use Rattle.std.specs.Prelude.{◌≡◌};
ghost use Rattle.base_format.specs.Checked.{mapped};
ghost use Rattle.base_format.specs.Player.{as25};
ghost use Rattle.base_format.specs.Rule.{answer_of};
ghost use Rattle.base_format.specs.State.{part_of};
ghost use Rattle.play_laws.specs.Plan.{plan, planned};
ghost use Rattle.play_plan.specs.Told.{plan_told, taken_told, plan_between};

use crate::frame::{begin_frame, plan_frame};
use crate::opening::plan_opening;
use base_format::{NextPart, Part, Progress, Refusal, Rule, StreamPlayer};
use base_next_part::next_part;
use base_refusal::refuse;
use base_state::{closing_at, moved, opening_begun};
use play_belongs::foreign;
use play_plan_taken::{Taken, plan_closing};

// A call's plan: how many writes it takes, whether the vsync is then complete, and the next state.
#[derive(Clone, Copy)]
pub struct CallPlan {
    pub count: usize,
    pub complete: bool,
    pub next: StreamPlayer,
}

// Between vsyncs the next one begins.
#[tactic(auto, unfolding(play_laws::specs::Plan::plan), using(crate::proofs::Telling::closing_told))]
fn plan_between(file: &[u8], state: StreamPlayer, room: usize, progress: Progress) -> Option<Taken>
    ensures { taken_told state result ≡ as25 (plan_between state file.now room progress) }
{
    match next_part(state.header, progress) {
        NextPart::Opening => {
            plan_opening(file, state, room, opening_begun(state.header, progress))
        }
        NextPart::Frame { place, frame } => begin_frame(file, state, room, place, frame, progress),
        NextPart::Closing => plan_closing(state.uses_si22, room, closing_at(progress, 0, false)),
    }
}

// The part that is under way goes on.
#[tactic(auto, unfolding(play_laws::specs::Plan::plan), using(crate::proofs::Telling::closing_told))]
fn plan_part(file: &[u8], state: StreamPlayer, room: usize, progress: Progress) -> Option<Taken>
    ensures { taken_told state result ≡ as25 (plan state file.now room progress (part_of progress.part)) }
{
    match Part::from(progress.part) {
        Part::Between => plan_between(file, state, room, progress),
        Part::Opening => plan_opening(file, state, room, progress),
        Part::Frame => plan_frame(file, state, room, progress),
        Part::Closing => plan_closing(state.uses_si22, room, progress),
    }
}

// One call, on any state and any bytes, with room for so many records. A finished state reads no file. Where player state and file do not
// belong together the answer is refusal 25 at place 0.
#[tactic(auto, unfolding(play_laws::specs::Plan::planned), using(base_format::proofs::Answered::passed_on, play_belongs::proofs::Belongs::foreign_is, base_format::proofs::As25::as25_then, base_format::proofs::As25::as25_refuse))]
pub fn plan_call(state: StreamPlayer, file: &[u8], room: usize) -> Result<CallPlan, Refusal>
    ensures { answer_of result ≡ mapped plan_told (planned state file.now room) }
{
    let progress = state.progress;
    if progress.finished {
        return Ok(CallPlan {
            count: 0,
            complete: true,
            next: state,
        });
    }
    let other = foreign(file.len(), state.header, state.cards.count, progress);
    refuse(Rule::OtherFile, 0, other)?;
    let refusal = Refusal {
        rule: Rule::OtherFile,
        place: 0,
    };
    let taken = plan_part(file, state, room, progress).ok_or(refusal)?;
    Ok(CallPlan {
        count: taken.count,
        complete: taken.complete,
        next: moved(state, taken.progress),
    })
}
