// Where a player is in its file: by value, and stored in a lent state. A progress is made from a position (crate base_state).
#![tactic(auto)]

mod store;

ghost use Rattle.std.specs.Prelude.{◌≡◌};
ghost use Rattle.base_format.specs.State.{between_at, opening_from, frame_from, closing_behind, onward_to, position_of};

use base_format::{Header, Part, Position, Progress};
pub use store::store_position;

// Between vsyncs, with so many frames of the pass begun.
pub fn between_at(cursor: usize, frame: u32) -> Position
    ensures { result ≡ between_at cursor frame }
{
    Position {
        part: Part::BETWEEN,
        cursor,
        operation_index: 0,
        operation_count: 0,
        write_index: 0,
        frame_index: frame,
    }
}

// At the opening's first operation.
pub fn opening_from(header: Header) -> Position
    ensures { result ≡ opening_from header }
{
    Position {
        part: Part::OPENING,
        cursor: header.initial_start as usize,
        operation_index: 0,
        operation_count: header.initial_count,
        write_index: 0,
        frame_index: 0,
    }
}

// At the first of a frame's operations, with so many frames of the pass begun.
pub fn frame_from(cursor: usize, operations: u32, frame: u32) -> Position
    ensures { result ≡ frame_from cursor operations frame }
{
    Position {
        part: Part::FRAME,
        cursor,
        operation_index: 0,
        operation_count: operations,
        write_index: 0,
        frame_index: frame,
    }
}

// In the closing writes, with so many made.
pub fn closing_behind(cursor: usize, writes: u32, frame: u32) -> Position
    ensures { result ≡ closing_behind cursor writes frame }
{
    Position {
        part: Part::CLOSING,
        cursor,
        operation_index: 0,
        operation_count: 0,
        write_index: writes,
        frame_index: frame,
    }
}

// In the same part, with so many operations done, and so many writes of the operation at the cursor.
pub fn onward_to(at: Position, cursor: usize, operations: u32, writes: u32) -> Position
    ensures { result ≡ onward_to at cursor operations writes }
{
    Position {
        cursor,
        operation_index: operations,
        write_index: writes,
        ..at
    }
}

// Where a progress is.
pub fn position_of(progress: Progress) -> Position
    ensures { result ≡ position_of progress }
{
    Position {
        part: progress.part,
        cursor: progress.cursor,
        operation_index: progress.operation_index,
        operation_count: progress.operation_count,
        write_index: progress.write_index,
        frame_index: progress.frame_index,
    }
}
