// The records of successive WRITEs and FILLs, one after the other. An operation is decoded when its first record comes, and no rule is
// checked again: this is for operations that an earlier pass has checked.
#![tactic(auto)]

ghost use Rattle.std.specs.Prelude.{◌≡◌, ◌+◌, ◌^◌, ◌<◌, ◌≤◌};
ghost use Rattle.base_format.specs.Size.{operation_most};
ghost use Rattle.play_fast_fill_records.specs.Records.{fill_place, following, first_record, next_fill};

use base_format::OPERATION_MOST;
use bytes_operation::{address_in, address_width, target_in};
use bytes_operation_known::{fill_length_in, fill_size_in, fill_value_in};
use bytes_read::{passes, window};
use std::num::wrapping_add_u32;

// A record's target, address and value, and how many more the operation makes behind it.
#[derive(Clone, Copy)]
pub struct FillPlace {
    pub target: u8,
    pub address: u32,
    pub value: u8,
    pub left: u32,
    // Where none is left: where the next operation stands, and how many of its records are passed over.
    pub cursor: usize,
    pub made: u32,
}

// The place before the records of the operation at a cursor, of which so many are made.
pub fn fill_place(cursor: usize, made: u32) -> FillPlace
    ensures { result ≡ fill_place cursor made }
{
    FillPlace {
        target: 0,
        address: 0,
        value: 0,
        left: 0,
        cursor,
        made,
    }
}

// The next record of the same operation.
fn following(place: FillPlace) -> FillPlace
    requires { 0 < place.left }
    ensures { result ≡ following place }
{
    FillPlace {
        target: place.target,
        address: wrapping_add_u32(place.address, 1),
        value: place.value,
        left: place.left - 1,
        cursor: place.cursor,
        made: place.made,
    }
}

// The first record that is not made yet of the WRITE or FILL in some bytes. The size asks for the opcode alone, and so it comes first; then the
// numbers in the file's order.
#[tactic(auto, unfolding(bytes_operation::specs::Decoded::decoded_operation))]
fn first_record(bytes: &[u8], width: usize, place: FillPlace) -> FillPlace
    requires { (3 ≤ width) × (width ≤ 4) × (place.cursor + operation_most < 2 ^ 64) }
    ensures { result ≡ first_record width bytes.now place }
{
    let size = fill_size_in(bytes, width);
    let target = target_in(bytes);
    let address = address_in(bytes, width);
    let length = fill_length_in(bytes, width);
    let value = fill_value_in(bytes, width);
    FillPlace {
        target,
        address: wrapping_add_u32(address, place.made),
        value,
        left: length.saturating_sub(place.made).saturating_sub(1),
        cursor: place.cursor + size,
        made: 0,
    }
}

// The next record. Where fewer than 16 bytes stand at the cursor there is none.
#[tactic(auto, unfolding(crate::specs::Records::next_fill))]
pub fn next_fill(file: &[u8], version: u8, place: FillPlace) -> FillPlace
    ensures { result ≡ next_fill file.now version place }
{
    if 0 < place.left {
        return following(place);
    }
    if passes(file.len(), place.cursor, OPERATION_MOST) {
        return fill_place(place.cursor, place.made);
    }
    let width = address_width(version);
    first_record(window(file, place.cursor), width, place)
}
