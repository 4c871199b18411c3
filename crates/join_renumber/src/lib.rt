// Renumbers the pools of COPYs, in a buffer that has a file's operations so many bytes further on: pools of the second file follow the
// first's. The walk goes by the file, and stands still at its end, so that nothing is asked of its numbers.
#![tactic(auto)]

ghost use Rattle.std.specs.Prelude.{◌≡◌, ◌≤◌};
ghost use Rattle.base_format.specs.Bytes.{byte};
ghost use Rattle.base_format.specs.Size.{file_limit};
ghost use Rattle.index_laws.specs.Frames.{items_walked};
ghost use Rattle.join_renumber.specs.Renumbered.{item_renumbered, items_renumbered, frames_renumbered};

use base_format::{COUNT_SIZE, FILE_LIMIT};
use bytes_operation_size::item_size;
use bytes_read::{put_low_u16, read_u16, smaller};
use index_frames::pass_empty_counts;

// The bytes of an address, and those of opcode, target and address, which stand in front of a COPY's pool.
const WIDTH: usize = 3;

const POOL_OFFSET: usize = 5;

// The operation at a place of the file.
fn renumber_item(file: &[u8], at: usize, opcode: u8, before: u32, buffer: &mut [u8], shift: usize)
    requires { (at ≤ file_limit) × (before ≤ 65536) × (shift ≤ file_limit) × (opcode ≡ byte file.now at) }
    ensures { buffer.new ≡ item_renumbered before shift file.now at buffer.old }
{
    if opcode == 2 {
        let pool = read_u16(file, at + POOL_OFFSET) as u32;
        put_low_u16(buffer, at + POOL_OFFSET + shift, before + pool);
    }
}

// So many operations from a place on, and where they end.
pub fn renumber_items(
    file: &[u8],
    count: u32,
    start: usize,
    before: u32,
    buffer: &mut [u8],
    shift: usize,
) -> usize
    requires { (before ≤ 65536) × (shift ≤ file_limit) }
    ensures { (buffer.new ≡ items_renumbered before shift file.now count start buffer.old)
        × (result ≡ items_walked 3 file.now count start) }
{
    let limit = smaller(file.len(), FILE_LIMIT as usize);
    let mut at = start;
    let mut left = count;
    while 0 < left {
        if at < limit {
            let opcode = file[at];
            renumber_item(file, at, opcode, before, buffer, shift);
            at += item_size(WIDTH, opcode);
            left -= 1;
        } else {
            return at;
        }
    }
    at
}

// So many frames, the first of which has its count at a place. Empty ones are passed over.
pub fn renumber_frames(
    file: &[u8],
    count: u32,
    start: usize,
    before: u32,
    buffer: &mut [u8],
    shift: usize,
)
    requires { (before ≤ 65536) × (shift ≤ file_limit) }
    ensures { buffer.new ≡ frames_renumbered before shift file.now count start buffer.old }
{
    let limit = smaller(file.len(), FILE_LIMIT as usize);
    let mut at = start;
    let mut left = count;
    while 0 < left {
        let next = pass_empty_counts(file, left, at);
        at = next.at;
        left = next.left;
        if left == 0 {
            return;
        }
        if limit <= at {
            return;
        }
        let items = read_u16(file, at);
        let first = at + COUNT_SIZE;
        at = renumber_items(file, items as u32, first, before, buffer, shift);
        left -= 1;
    }
}
