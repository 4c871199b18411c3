// Whether a state belongs to a file: its recorded size, version and card counts, its places and its counters (25).
#![tactic(auto)]

ghost use Rattle.std.specs.Prelude.{◌≡◌, ◌||◌, eqb, ltb};
ghost use Rattle.play_belongs.specs.Foreign.{foreign_to};

use base_format::{Header, Progress};

// Whether the version or a card count, the header's or the table's, is none of a file's.
fn recorded_wrong(version: u8, card_count: u8, cards: usize) -> bool
    ensures { result ≡ (eqb version 0 || ltb 4 version || ltb 8 card_count || ltb 8 cards) }
{
    version == 0 || 4 < version || 8 < card_count || 8 < cards
}

// Whether a place passes the file's end.
fn place_past(length: usize, cursor: usize, opening: u32, frames: usize, directory: u32) -> bool
    ensures { result ≡ (ltb length cursor || ltb length opening || ltb length frames || ltb length directory) }
{
    length < cursor || length < opening as usize || length < frames || length < directory as usize
}

// Whether a counter passes its count.
fn counter_past(frames: u32, frame: u32, operations: u32, operation: u32) -> bool
    ensures { result ≡ (ltb frames frame || ltb operations operation) }
{
    frames < frame || operations < operation
}

// Whether a state with so many cards belongs to another file than one of a length.
#[tactic(auto, unfolding(crate::specs::Foreign::foreign_to))]
pub fn foreign(length: usize, header: Header, cards: usize, progress: Progress) -> bool
    ensures { result ≡ foreign_to length header cards progress }
{
    length != header.total_size as usize
        || recorded_wrong(header.version, header.card_count, cards)
        || place_past(
            length,
            progress.cursor,
            header.initial_start,
            header.frame_start,
            header.directory_offset,
        )
        || counter_past(
            header.frame_count,
            progress.frame_index,
            progress.operation_count,
            progress.operation_index,
        )
}
