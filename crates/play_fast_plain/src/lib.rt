// Plain WRITEs: records and WRITEs to a target whose limit needs no card, which are a core, PCM memory, version 3's target 3 and
// version 4's target 11. A run of them is passed by a loop that looks at nothing of the player's state.
#![tactic(auto)]

ghost use Rattle.std.specs.Prelude.{◌≡◌, ◌≤◌, length};
ghost use Rattle.base_format.specs.Size.{operation_most};
ghost use Rattle.play_fast_plain.specs.Plain.{plain_end, plain_size, plain_in, plain_behind};

use base_format::{OPERATION_MOST, RECORD_SIZE};
use base_targets::Target;
use bytes_operation::{
    address_in, address_width, decode_record, opcode_in, operation_size, target_in,
};
use bytes_read::window;

// The address behind the last one of such a target; 0 for the others.
#[tactic(auto, unfolding(crate::specs::Plain::plain_end))]
fn plain_end(version: u8, target: u8) -> u32
    ensures { result ≡ plain_end version target }
{
    // A row of tests and no `match`, which would be a jump by a table for each WRITE.
    if target < 2 {
        return Target::CORE_LAST + 1;
    }
    if target == 2 {
        return Target::PCM_LAST + 1;
    }
    if version == 3 && target == 3 {
        return Target::CARD_LAST + 1;
    }
    if version == 4 && target == 11 {
        return Target::SI22_LAST + 1;
    }
    0
}

// How many bytes a plain WRITE has.
#[tactic(auto, unfolding(crate::specs::Plain::plain_size), using(crate::proofs::Items::size_small))]
pub fn plain_size(version: u8) -> usize
    ensures { (result ≡ plain_size version) × (result ≤ operation_most) }
{
    if version == 1 {
        return RECORD_SIZE;
    }
    operation_size(address_width(version), 0)
}

// Whether 16 bytes begin with one.
#[tactic(auto, unfolding(crate::specs::Plain::plain_in, bytes_operation::specs::Decoded::decoded_item, bytes_operation::specs::Decoded::decoded_record, bytes_operation::specs::Decoded::decoded_operation))]
fn plain_in(version: u8, bytes: &[u8]) -> bool
    ensures { result ≡ plain_in version bytes.now }
{
    if version == 1 {
        let record = decode_record(bytes);
        return record.address < plain_end(version, record.target);
    }
    if opcode_in(bytes) != 0 {
        return false;
    }
    let target = target_in(bytes);
    address_in(bytes, address_width(version)) < plain_end(version, target)
}

// The place behind so many of them; none where one is not plain or has no 16 bytes before the end.
// It is a function of its own for LLVM too, which then puts its loop on a boundary.
#[inline(never)]
#[tactic(auto, unfolding(crate::specs::Plain::plain_behind), using(crate::proofs::Behind::behind_step, crate::proofs::Behind::behind_short, crate::proofs::Behind::behind_other))]
pub fn plain_behind(file: &[u8], version: u8, end: usize, count: u32, start: usize) -> Option<usize>
    requires { end ≤ length file.now }
    ensures { result ≡ plain_behind version file.now end count start }
{
    let size = plain_size(version);
    let mut at = start;
    for _i in 0..count {
        if end < OPERATION_MOST {
            return None;
        }
        if end - OPERATION_MOST < at {
            return None;
        }
        if !plain_in(version, window(file, at)) {
            return None;
        }
        at += size;
    }
    Some(at)
}
