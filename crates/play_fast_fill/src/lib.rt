// The WRITEs and FILLs that are left of a part, as far as there is room for their writes. Each is compared with a table of ranges,
// without a branch on its opcode, because a file's opcodes need not follow any pattern.
#![tactic(auto)]

ghost use Rattle.std.specs.Prelude.{◌≡◌, ◌≤◌, length};
ghost use Rattle.base_format.specs.Card.{cards_of};
ghost use Rattle.bytes_operation.specs.Decoded.{decoded_operation};
ghost use Rattle.play_fast_fill.specs.Fills.{fill_count, fills_from, fills_taken};

use base_format::{CardTable, OPERATION_MOST};
use bytes_operation::{address_in, address_width, opcode_in, target_in};
use bytes_operation_known::{fill_length_in, fill_size_in};
use bytes_read::{passes, window};
use check_fast_rules::out_of_bulk;
use play_fast_ranges::{RANGES, address_ranges};

// Where the player stops: the cursor, the operations and the room that are left, and the writes made of the operation at the cursor.
#[derive(Clone, Copy)]
pub struct FillsTaken {
    pub cursor: usize,
    pub left: u32,
    pub room: usize,
    pub writes: u32,
}

// How many writes the operation in 16 bytes makes if it is a WRITE or a FILL that the ranges allow, else 0. It is no Option: a count of
// 0 makes no write, and the caller's one test of the count against the writes that are made covers both.
#[tactic(auto, unfolding(crate::specs::Fills::fill_count, bytes_operation::specs::Decoded::decoded_operation), using(bytes_operation_known::proofs::Laws::fill_length_lem))]
fn fill_count(bytes: &[u8], width: usize, starts: &[u32; RANGES], ends: &[u64; RANGES]) -> u32
    requires { (3 ≤ width) × (width ≤ 4) }
    ensures { result ≡ fill_count (decoded_operation width bytes.now) starts.now ends.now }
{
    let opcode = opcode_in(bytes);
    let target = target_in(bytes);
    if 1 < opcode {
        return 0;
    }
    if 15 < target {
        return 0;
    }
    let address = address_in(bytes, width);
    let count = fill_length_in(bytes, width);
    let k = 16 * opcode as usize + target as usize;
    if out_of_bulk(address, count, starts[k], ends[k]) {
        return 0;
    }
    count
}

// So many operations from a cursor, the first with so many writes made.
fn fills_from(
    file: &[u8],
    width: usize,
    starts: &[u32; RANGES],
    ends: &[u64; RANGES],
    limit: usize,
    left: u32,
    room: usize,
    cursor: usize,
    writes: u32,
) -> Result<FillsTaken, FillsTaken>
    requires { (3 ≤ width) × (width ≤ 4) × (limit ≤ length file.now) }
    ensures { result ≡ fills_from file.now width starts.now ends.now limit left room cursor writes }
{
    let mut at = cursor;
    let mut free = room;
    let mut done = writes;
    for i in 0..left {
        let here = FillsTaken {
            cursor: at,
            left: left - i,
            room: free,
            writes: done,
        };
        if free == 0 {
            return Ok(here);
        }
        if passes(limit, at, OPERATION_MOST) {
            return Err(here);
        }
        let bytes = window(file, at);
        let count = fill_count(bytes, width, starts, ends);
        if count <= done {
            return Err(here);
        }
        let rest = count - done;
        if free < rest as usize {
            return Ok(FillsTaken {
                room: 0,
                writes: done + free as u32,
                ..here
            });
        }
        free -= rest as usize;
        at += fill_size_in(bytes, width);
        done = 0;
    }
    Ok(FillsTaken {
        cursor: at,
        left: 0,
        room: free,
        writes: done,
    })
}

// The operations that are left of a part, for as many writes as there is room for. An error says where the walk came to an operation
// that is no WRITE or FILL, that is not allowed, or whose writes are all made.
#[tactic(auto, unfolding(crate::specs::Fills::fills_taken))]
pub fn take_fills(
    file: &[u8],
    version: u8,
    cards: CardTable,
    limit: usize,
    left: u32,
    room: usize,
    cursor: usize,
    writes: u32,
) -> Result<FillsTaken, FillsTaken>
    requires { limit ≤ length file.now }
    ensures { result ≡ fills_taken file.now version (cards_of cards) limit left room cursor writes }
{
    let here = FillsTaken {
        cursor,
        left,
        room,
        writes,
    };
    if version < 2 {
        return Err(here);
    }
    if 4 < version {
        return Err(here);
    }
    let mut starts: [u32; RANGES] = [0; RANGES];
    let mut ends: [u64; RANGES] = [0; RANGES];
    address_ranges(version, cards, &mut starts, &mut ends);
    let width = address_width(version);
    fills_from(
        file, width, &starts, &ends, limit, left, room, cursor, writes,
    )
}
