// The width of addresses, by the version, and the sizes of operations, by the width.
#![tactic(auto)]

ghost use Rattle.std.specs.Prelude.{cond, ◌≡◌, ◌+◌, ◌≤◌, min, eqb, get_or};
ghost use Rattle.base_format.specs.Bytes.{be};
ghost use Rattle.base_format.specs.Operation.{address_width, extras, size_of};

use bytes_read::{read_u24, read_u32};

// The sizes of WRITE, FILL and COPY, a row for addresses of 3 bytes and a row for 4.
const SIZES: [[usize; 3]; 2] = [[6, 10, 15], [7, 11, 16]];

pub fn address_width(version: u8) -> usize
    ensures { (result ≡ address_width version) × (3 ≤ result) × (result ≤ 4) }
{
    if version <= 2 {
        return 3;
    }
    4
}

// A number for addresses of 3 bytes and one for 4.
fn by_width(width: usize, narrow: usize, wide: usize) -> usize
    ensures { result ≡ cond (eqb width 3) narrow wide }
{
    if width == 3 {
        return narrow;
    }
    wide
}

// An entry of the table. Every index is a constant, so that an entry is a choice between numbers and not a load that the place of the
// next operation waits for.
pub fn operation_size(width: usize, opcode: usize) -> usize
    requires { (3 ≤ width) × (width ≤ 4) × (opcode ≤ 2) }
    ensures { (result ≡ size_of width opcode) × (result ≡ width + get_or extras opcode 0) }
{
    if opcode == 0 {
        return by_width(width, SIZES[0][0], SIZES[1][0]);
    }
    if opcode == 1 {
        return by_width(width, SIZES[0][1], SIZES[1][1]);
    }
    by_width(width, SIZES[0][2], SIZES[1][2])
}

// The bytes of an operation; what is no opcode counts as a COPY. Each size is a choice between constants, and the place of the next operation
// waits for no load.
pub fn item_size(width: usize, opcode: u8) -> usize
    requires { (3 ≤ width) × (width ≤ 4) }
    ensures { (result ≡ size_of width (min opcode 2)) × (result ≤ 16) }
{
    if opcode == 0 {
        return operation_size(width, 0);
    }
    if opcode == 1 {
        return operation_size(width, 1);
    }
    operation_size(width, 2)
}

// An address of 3 or 4 bytes, from its highest byte down.
pub fn read_address(file: &[u8], width: usize, at: usize) -> u32
    requires { (3 ≤ width) × (width ≤ 4) }
    ensures { result ≡ be width file.now at }
{
    if width == 3 {
        return read_u24(file, at);
    }
    read_u32(file, at)
}
