// The operations that are left of a part, as far as there is room for their writes.
ghost use Rattle.std.specs.Prelude.{◌≡◌, ◌≤◌, IfSome};
ghost use Rattle.play_laws.specs.Plan.{planned_operations};
ghost use Rattle.base_format.specs.Player.{operations_left, as25};
ghost use Rattle.play_plan_part.specs.Told.{operations_plan_of};

use crate::item::start_item;
use base_format::{Progress, StreamPlayer};
use base_next_part::operations_left;
use base_state::placed;

// The room that is left and the progress.
#[derive(Clone, Copy)]
pub struct OperationsPlan {
    pub room: usize,
    pub progress: Progress,
}

// The operations from the progress on, for as many writes as there is room for; none is refusal 25. Without room nothing is read.
#[tactic(auto, using(crate::proofs::PlannedOperations::operations_refused))]
pub fn plan_operations(
    file: &[u8],
    state: StreamPlayer,
    limit: usize,
    room: usize,
    progress: Progress,
) -> Option<OperationsPlan>
    ensures { (operations_plan_of result ≡ as25 (planned_operations state file.now limit (operations_left progress) room progress))
        × IfSome result (λ plan. plan.room ≤ room) }
{
    let mut waves = progress.wave_sources;
    let mut cursor = progress.cursor;
    let mut operations = progress.operation_index;
    let mut writes = progress.write_index;
    let mut free = room;
    let left = operations_left(progress.operation_index, progress.operation_count);
    for _i in 0..left {
        if free == 0 {
            let full = placed(progress, cursor, operations, writes, waves);
            return Some(OperationsPlan {
                room: 0,
                progress: full,
            });
        }
        let started = start_item(file, state, limit, cursor, writes, waves)?;
        waves = started.waves;
        let rest = started.rest as usize;
        let cut = free < rest;
        if cut {
            let made = writes + free as u32;
            let full = placed(progress, cursor, operations, made, waves);
            return Some(OperationsPlan {
                room: 0,
                progress: full,
            });
        }
        free -= rest;
        cursor = started.next;
        operations += 1;
        writes = 0;
    }
    let done = placed(progress, cursor, operations, writes, waves);
    Some(OperationsPlan {
        room: free,
        progress: done,
    })
}
