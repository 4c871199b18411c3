// The numbers of an operation, one by one, in bytes that begin with it. Past the bytes' end every byte reads as 0. What stands behind the
// address hangs on the opcode: `.._in` asks for it first, `.._by` is given the one that was read. Where the opcode decides where a number
// stands, it chooses between places, so that there is no branch once it is compiled; what a WRITE has for a length or a COPY for a value is
// dropped.
ghost use Rattle.std.specs.Prelude.{◌≡◌, cond, ◌+◌, ◌≤◌, eqb};
ghost use Rattle.base_format.specs.Bytes.{byte, be};
ghost use Rattle.base_format.specs.Size.{operation_most};
ghost use Rattle.bytes_operation.specs.Decoded.{by_opcode, size_by, decoded_operation};

use bytes_operation_size::{operation_size, read_address};
use bytes_read::{byte_at, read_u16, read_u32};

pub fn opcode_in(bytes: &[u8]) -> u8
    ensures { result ≡ byte bytes.now 0 }
{
    byte_at(bytes, 0)
}

pub fn target_in(bytes: &[u8]) -> u8
    ensures { result ≡ byte bytes.now 1 }
{
    byte_at(bytes, 1)
}

pub fn address_in(bytes: &[u8], width: usize) -> u32
    requires { (3 ≤ width) × (width ≤ 4) }
    ensures { result ≡ (decoded_operation width bytes.now).address }
{
    read_address(bytes, width, 2)
}

// Where a length stands: behind a FILL's address, or at a COPY's end.
fn length_place(opcode: u8, width: usize) -> usize
    requires { width ≤ 4 }
    ensures { result ≡ cond (eqb opcode 1) (2 + width) (8 + width) }
{
    if opcode == 1 {
        return 2 + width;
    }
    8 + width
}

// A WRITE has no length; it makes one write.
pub fn length_in(bytes: &[u8], width: usize) -> u32
    requires { (3 ≤ width) × (width ≤ 4) }
    ensures { result ≡ (decoded_operation width bytes.now).length }
{
    let opcode = opcode_in(bytes);
    length_by(opcode, bytes, width)
}

// Where a value stands: behind a WRITE's address, or behind a FILL's length.
fn value_place(opcode: u8, width: usize) -> usize
    requires { width ≤ 4 }
    ensures { result ≡ cond (eqb opcode 0) (2 + width) (6 + width) }
{
    if opcode == 0 {
        return 2 + width;
    }
    6 + width
}

// A COPY has no value.
pub fn value_in(bytes: &[u8], width: usize) -> u8
    requires { (3 ≤ width) × (width ≤ 4) }
    ensures { result ≡ (decoded_operation width bytes.now).value }
{
    let opcode = opcode_in(bytes);
    value_by(opcode, bytes, width)
}

// Only a COPY has a pool.
pub fn pool_in(bytes: &[u8], width: usize) -> u16
    requires { (3 ≤ width) × (width ≤ 4) }
    ensures { result ≡ (decoded_operation width bytes.now).pool }
{
    let opcode = opcode_in(bytes);
    pool_by(opcode, bytes, width)
}

// Only a COPY has a source.
pub fn source_in(bytes: &[u8], width: usize) -> u32
    requires { (3 ≤ width) × (width ≤ 4) }
    ensures { result ≡ (decoded_operation width bytes.now).source }
{
    let opcode = opcode_in(bytes);
    source_by(opcode, bytes, width)
}

// How many bytes the operation has, by the table of lengths; 0 where the opcode is none.
pub fn size_in(bytes: &[u8], width: usize) -> usize
    requires { (3 ≤ width) × (width ≤ 4) }
    ensures { (result ≡ (decoded_operation width bytes.now).size) × (result ≤ operation_most) }
{
    let opcode = opcode_in(bytes);
    size_by(opcode, width)
}

// Behind the address, in the file's order: a COPY's pool and source, the length of a FILL or a COPY, the value of a WRITE or a FILL.
pub fn pool_by(opcode: u8, bytes: &[u8], width: usize) -> u16
    requires { width ≤ 4 }
    ensures { result ≡ by_opcode opcode 0 0 (be 2 bytes.now (2 + width)) }
{
    if opcode < 2 {
        return 0;
    }
    read_u16(bytes, 2 + width)
}

pub fn source_by(opcode: u8, bytes: &[u8], width: usize) -> u32
    requires { width ≤ 4 }
    ensures { result ≡ by_opcode opcode 0 0 (be 4 bytes.now (4 + width)) }
{
    if opcode < 2 {
        return 0;
    }
    read_u32(bytes, 4 + width)
}

pub fn length_by(opcode: u8, bytes: &[u8], width: usize) -> u32
    requires { width ≤ 4 }
    ensures { result ≡ by_opcode opcode 1 (be 4 bytes.now (2 + width)) (be 4 bytes.now (8 + width)) }
{
    let length = read_u32(bytes, length_place(opcode, width));
    if opcode == 0 {
        return 1;
    }
    length
}

pub fn value_by(opcode: u8, bytes: &[u8], width: usize) -> u8
    requires { width ≤ 4 }
    ensures { result ≡ by_opcode opcode (byte bytes.now (2 + width)) (byte bytes.now (6 + width)) 0 }
{
    let value = byte_at(bytes, value_place(opcode, width));
    if 1 < opcode {
        return 0;
    }
    value
}

// The size needs no byte but the opcode.
pub fn size_by(opcode: u8, width: usize) -> usize
    requires { (3 ≤ width) × (width ≤ 4) }
    ensures { (result ≡ size_by width opcode) × (result ≤ operation_most) }
{
    if 2 < opcode {
        return 0;
    }
    operation_size(width, opcode as usize)
}
