// A lent index, for a jump: whether it is another than the accepted file's own, and by the own one the place of a frame. The index is compared
// where it lies, number by number on the walk that builds it.
#![tactic(auto)]

ghost use Rattle.std.specs.Prelude.{◌≡◌, ◌^◌, ◌<◌};
ghost use Rattle.index_check.specs.Other.{trailer_other, entries_other, other_index};
ghost use Rattle.index_check.specs.Place.{place_by};

use base_format::{Header, INDEX_ENTRY_SIZE, INDEX_SPACING, INDEX_TRAILER_SIZE};
use bytes_read::read_u32;
use index_frames::{entry_count, frames_end};

// Whether the trailer at a place differs: the place is the distance too.
#[tactic(auto, unfolding(crate::specs::Other::trailer_other))]
fn other_trailer(index: &[u8], place: usize, entries: usize, total: u32) -> bool
    requires { place < 2 ^ 32 }
    ensures { result ≡ trailer_other index.now place entries total }
{
    read_u32(index, place) as usize != place
        || read_u32(index, place + 4) as usize != entries
        || read_u32(index, place + 8) != total
}

// Whether one of so many entries differs.
#[tactic(auto, using(crate::proofs::Steps::entry_same, crate::proofs::Steps::entry_differs))]
fn other_entries(file: &[u8], version: u8, index: &[u8], entries: usize, start: usize) -> bool
    requires { entries < 2 ^ 32 }
    ensures { result ≡ entries_other version file.now index.now entries 0 start }
{
    let mut at = start;
    for i in 0..entries {
        if read_u32(index, i * INDEX_ENTRY_SIZE) as usize != at {
            return true;
        }
        at = frames_end(file, version, INDEX_SPACING, at);
    }
    false
}

// Whether an index is another than that of the accepted file with a header.
#[tactic(auto, unfolding(crate::specs::Other::other_index))]
pub fn other_index(file: &[u8], header: Header, index: &[u8]) -> bool
    ensures { result ≡ other_index file.now header index.now }
{
    let entries = entry_count(header.frame_count);
    let place = entries * INDEX_ENTRY_SIZE;
    index.len() != place + INDEX_TRAILER_SIZE
        || other_trailer(index, place, entries, header.total_size)
        || other_entries(file, header.version, index, entries, header.frame_start)
}

// The place of a frame's count, from the entry before it on. Frames are counted from 1.
#[tactic(auto, unfolding(crate::specs::Place::place_by))]
pub fn frame_place(file: &[u8], version: u8, index: &[u8], frame: u32) -> usize
    ensures { result ≡ place_by version file.now index.now frame }
{
    let number = frame.saturating_sub(1);
    let entry = number / INDEX_SPACING;
    let start = read_u32(index, entry as usize * INDEX_ENTRY_SIZE) as usize;
    frames_end(file, version, number % INDEX_SPACING, start)
}
