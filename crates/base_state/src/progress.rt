// A player's progress by value: made at a position, begun, moved on and ended.
ghost use Rattle.std.specs.Prelude.{true, false, ◌≡◌};
ghost use Rattle.base_format.specs.Player.{placed, opening_begun, frame_ended, closing_at};
ghost use Rattle.base_format.specs.State.{between_at, frame_from, progress_at, unplayed};

use base_format::{Header, Position, Progress, WaveSource};
use base_position::{between_at, closing_behind, frame_from, onward_to, opening_from, position_of};

// The one place where a progress is made.
fn progress_at(at: Position, initialized: bool, finished: bool, waves: [WaveSource; 16]) -> Progress
    ensures { result ≡ progress_at at initialized finished waves }
{
    Progress {
        part: at.part,
        cursor: at.cursor,
        operation_index: at.operation_index,
        operation_count: at.operation_count,
        write_index: at.write_index,
        frame_index: at.frame_index,
        initialized,
        finished,
        wave_sources: waves,
    }
}

// Before the first vsync; a refused start gives a finished one.
#[tactic(auto, unfolding(base_format::specs::State::unplayed))]
pub fn unplayed(finished: bool, cursor: usize) -> Progress
    ensures { result ≡ unplayed finished cursor }
{
    let wave = WaveSource {
        copied: false,
        pool: 0,
    };
    progress_at(between_at(cursor, 0), false, finished, [wave; 16])
}

// The opening begins.
pub fn opening_begun(header: Header, progress: Progress) -> Progress
    ensures { result ≡ opening_begun header progress }
{
    progress_at(opening_from(header), false, false, progress.wave_sources)
}

// A frame of so many operations begins, the first of them at the cursor; it is one of the frames of the pass that are then begun.
pub fn frame_begun(cursor: usize, operations: u32, frame: u32, progress: Progress) -> Progress
    ensures { result ≡ progress_at (frame_from cursor operations frame) true false progress.wave_sources }
{
    let first = frame_from(cursor, operations, frame);
    progress_at(first, true, false, progress.wave_sources)
}

// The frame is over, and with it the vsync.
pub fn frame_ended(progress: Progress) -> Progress
    ensures { result ≡ frame_ended progress }
{
    let at = between_at(progress.cursor, progress.frame_index);
    progress_at(at, true, false, progress.wave_sources)
}

// Before a frame whose count stands at the cursor, with so many frames of the pass begun: a jump sets a player so. The wave sources stay,
// and the opening counts as played.
pub fn before_frame(progress: Progress, cursor: usize, frame: u32) -> Progress
    ensures { result ≡ progress_at (between_at cursor frame) true false progress.wave_sources }
{
    let before = between_at(cursor, frame);
    progress_at(before, true, false, progress.wave_sources)
}

// The progress at a cursor, with so many operations done, and so many writes of the operation there.
pub fn placed(
    progress: Progress,
    cursor: usize,
    operations: u32,
    writes: u32,
    waves: [WaveSource; 16],
) -> Progress
    ensures { result ≡ placed progress cursor operations writes waves }
{
    let at = onward_to(position_of(progress), cursor, operations, writes);
    progress_at(at, progress.initialized, progress.finished, waves)
}

// The closing writes, with so many made.
pub fn closing_at(progress: Progress, writes: u32, finished: bool) -> Progress
    ensures { result ≡ closing_at writes finished progress }
{
    let at = closing_behind(progress.cursor, writes, progress.frame_index);
    progress_at(at, true, finished, progress.wave_sources)
}
