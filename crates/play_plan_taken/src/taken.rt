// What a call takes of the part that is playing, before it is put into the state.
ghost use Rattle.std.specs.Prelude.{◌≡◌, ◌+◌, ◌^◌, ◌≤◌, ◌<◌};
ghost use Rattle.play_plan_taken.specs.Taken.{taken_by, behind, ended};

use base_format::Progress;
use base_next_part::operations_left;
use base_state::frame_ended;
use play_plan_part::OperationsPlan;

// How many writes, whether the vsync is then complete, and the progress.
#[derive(Clone, Copy)]
pub struct Taken {
    pub count: usize,
    pub complete: bool,
    pub progress: Progress,
}

// What was taken of so much room: all that is not left of it.
pub fn taken_by(room: usize, plan: OperationsPlan) -> Taken
    requires { plan.room ≤ room }
    ensures { result ≡ taken_by room plan }
{
    Taken {
        count: room - plan.room,
        complete: false,
        progress: plan.progress,
    }
}

// What is taken behind so many writes.
pub fn behind(count: usize, more: Taken) -> Taken
    requires { count + more.count < 2 ^ 64 }
    ensures { result ≡ behind count more }
{
    Taken {
        count: count + more.count,
        ..more
    }
}

// The vsync is complete where no operation of its frame is left.
pub fn ended(taken: Taken) -> Taken
    ensures { (result ≡ ended taken) × (result.count ≡ taken.count) }
{
    let progress = taken.progress;
    if operations_left(progress.operation_index, progress.operation_count) != 0 {
        return taken;
    }
    Taken {
        count: taken.count,
        complete: true,
        progress: frame_ended(progress),
    }
}
