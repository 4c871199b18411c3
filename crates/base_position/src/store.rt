// The position of a lent state: six numbers of its progress, stored here and nowhere else.
ghost use Rattle.std.specs.Prelude.{◌≡◌};
ghost use Rattle.base_format.specs.State.{moved, moved_to};

use base_format::{Position, StreamPlayer};

// The lent state is moved to a position; all else of it stays.
pub fn store_position(state: &mut StreamPlayer, at: Position)
    ensures { state.new ≡ moved state.old (moved_to state.old.progress at) }
{
    state.progress.part = at.part;
    state.progress.cursor = at.cursor;
    state.progress.operation_index = at.operation_index;
    state.progress.operation_count = at.operation_count;
    state.progress.write_index = at.write_index;
    state.progress.frame_index = at.frame_index;
}
