// What a call takes of the opening. The call that finishes it goes on with frame 1.
ghost use Rattle.std.specs.Prelude.{◌≡◌};
ghost use Rattle.base_format.specs.Player.{as25};
ghost use Rattle.play_laws.specs.Plan.{plan_opening};
ghost use Rattle.play_plan.specs.Told.{taken_told};

use crate::frame::begin_frame;
use base_format::{Progress, StreamPlayer};
use base_next_part::{opening_limit, operations_left};
use play_plan_part::plan_operations;
use play_plan_taken::{Taken, behind, taken_by};

#[tactic(auto, unfolding(play_laws::specs::Plan::plan_opening), using(base_format::proofs::As25::as25_bind))]
pub(crate) fn plan_opening(
    file: &[u8],
    state: StreamPlayer,
    room: usize,
    progress: Progress,
) -> Option<Taken>
    ensures { taken_told state result ≡ as25 (plan_opening state file.now room progress) }
{
    let limit = opening_limit(file, state.header);
    let plan = plan_operations(file, state, limit, room, progress)?;
    let taken = taken_by(room, plan);
    let after = plan.progress;
    if operations_left(after.operation_index, after.operation_count) != 0 {
        return Some(taken);
    }
    let more = begin_frame(file, state, plan.room, state.header.frame_start, 0, after)?;
    Some(behind(taken.count, more))
}
