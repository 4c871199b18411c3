// Passes over frames by the sizes of their operations alone, for the index and for a jump; and how many entries an index has. No rule is asked
// again: of an accepted file the walk leads from frame to frame. Nothing is asked of the file either: the walk stands still at its end.
#![tactic(auto)]

ghost use Rattle.std.specs.Prelude.{◌≡◌, ◌≤◌};
ghost use Rattle.base_format.specs.Index.{entries_for};
ghost use Rattle.index_laws.specs.Frames.{walk_limit, items_walked, frame_walked, frames_walked, EmptyPassed};

use base_format::{COUNT_SIZE, FILE_LIMIT, INDEX_SPACING, RECORD_SIZE};
use bytes_operation_size::{address_width, item_size};
use bytes_read::{passes, read_u16, read_u32};

// Where so many operations end. Of each only the opcode is read.
#[tactic(auto, using(index_laws::proofs::Frames::items_step, index_laws::proofs::Frames::items_still))]
fn items_end(file: &[u8], width: usize, limit: usize, count: u32, start: usize) -> usize
    requires { (3 ≤ width) × (width ≤ 4) × (limit ≡ walk_limit file.now) }
    ensures { result ≡ items_walked width file.now count start }
{
    let mut at = start;
    for _i in 0..count {
        if limit <= at {
            return at;
        }
        at += item_size(width, file[at]);
    }
    at
}

// Where the frame ends whose count stands at a place. The records of version 1 are all alike, and need no walk.
#[tactic(auto, unfolding(index_laws::specs::Frames::frame_walked))]
fn frame_end(file: &[u8], version: u8, at: usize) -> usize
    ensures { result ≡ frame_walked version file.now at }
{
    let limit = file.len().min(FILE_LIMIT as usize);
    if limit <= at {
        return at;
    }
    let count = read_u16(file, at);
    let first = at + COUNT_SIZE;
    if version == 1 {
        return first + count as usize * RECORD_SIZE;
    }
    items_end(file, address_width(version), limit, count as u32, first)
}

// Where a frame has its count, and how many frames are left there.
#[derive(Clone, Copy)]
pub struct FramesLeft {
    pub at: usize,
    pub left: u32,
}

// Passes empty frames in front of so many, four at a time: a file may have millions of them.
#[tactic(auto, using(index_laws::proofs::Empty::none_passed))]
pub fn pass_empty_counts(file: &[u8], count: u32, start: usize) -> FramesLeft
    ensures { EmptyPassed file.now count start result.left result.at }
{
    let limit = file.len().min(FILE_LIMIT as usize);
    let mut at = start;
    let mut left = count;
    for _i in 0..count / 4 {
        if passes(limit, at, 8) || read_u32(file, at) != 0 || read_u32(file, at + 4) != 0 {
            break;
        }
        at += 8;
        left -= 4;
    }
    FramesLeft { at, left }
}

// Where so many frames end, the first of which has its count at a place.
#[tactic(auto, using(index_laws::proofs::Frames::frames_step))]
pub fn frames_end(file: &[u8], version: u8, count: u32, start: usize) -> usize
    ensures { result ≡ frames_walked version file.now count start }
{
    let FramesLeft { mut at, left } = pass_empty_counts(file, count, start);
    for _i in 0..left {
        at = frame_end(file, version, at);
    }
    at
}

// How many entries the index of so many frames has.
pub fn entry_count(frames: u32) -> usize
    ensures { result ≡ entries_for frames }
{
    frames.div_ceil(INDEX_SPACING) as usize
}
