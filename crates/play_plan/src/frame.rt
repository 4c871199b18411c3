// What a call takes of a frame.
ghost use Rattle.std.specs.Prelude.{◌≡◌, ◌+◌, ◌^◌, ◌≤◌, ◌<◌, IfSome};
ghost use Rattle.base_format.specs.Player.{as25};
ghost use Rattle.play_laws.specs.Plan.{plan_frame};
ghost use Rattle.play_plan.specs.Told.{taken_told, plan_begun};

use base_format::{COUNT_SIZE, Progress, StreamPlayer};
use base_state::frame_begun;
use bytes_read::{passes, read_u16};
use play_plan_part::plan_operations;
use play_plan_taken::{Taken, ended, taken_by};

// None is refusal 25, here and below.
#[tactic(auto, unfolding(play_laws::specs::Plan::plan_frame), using(base_format::proofs::As25::as25_bind, crate::proofs::Telling::frame_told))]
pub(crate) fn plan_frame(
    file: &[u8],
    state: StreamPlayer,
    room: usize,
    progress: Progress,
) -> Option<Taken>
    ensures { (taken_told state result ≡ as25 (plan_frame state file.now room progress)) × IfSome result (λ taken. taken.count ≤ room) }
{
    let plan = plan_operations(file, state, file.len(), room, progress)?;
    Some(ended(taken_by(room, plan)))
}

// A frame, counted from 0, that begins at the cursor.
#[tactic(auto, unfolding(base_format::specs::Player::frame_begun))]
pub(crate) fn begin_frame(
    file: &[u8],
    state: StreamPlayer,
    room: usize,
    cursor: usize,
    frame: u32,
    progress: Progress,
) -> Option<Taken>
    requires { frame + 1 < 2 ^ 32 }
    ensures { (taken_told state result ≡ as25 (plan_begun state file.now room cursor frame progress)) × IfSome result (λ taken. taken.count ≤ room) }
{
    if passes(file.len(), cursor, COUNT_SIZE) {
        return None;
    }
    let count = read_u16(file, cursor) as u32;
    let start = frame_begun(cursor + COUNT_SIZE, count, frame + 1, progress);
    plan_frame(file, state, room, start)
}
