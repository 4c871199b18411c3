// All numbers of a record or an operation at once, and the operation that they are.
ghost use Rattle.std.specs.Prelude.{◌≡◌, ◌≤◌};
ghost use Rattle.base_format.specs.Size.{operation_most};
ghost use Rattle.bytes_operation.specs.Decoded.{decoded_operation, decoded_record, decoded_item, operation_of};

use crate::number::{
    address_in, length_by, opcode_in, pool_by, size_by, source_by, target_in, value_by,
};
use base_format::{Operation, RECORD_SIZE};
use bytes_operation_size::{address_width, read_address};
use bytes_read::byte_at;

// The numbers of an item: `length` is 1 where it has none, `value` is 0 in a COPY, `pool` and `source` are 0 in any other. `size` is how
// many bytes it has; 0 where the opcode is none.
#[derive(Clone, Copy)]
pub struct Decoded {
    pub opcode: u8,
    pub target: u8,
    pub address: u32,
    pub length: u32,
    pub value: u8,
    pub pool: u16,
    pub source: u32,
    pub size: usize,
}

// An operation with addresses of a width. Its numbers are fetched in the file's order: opcode, target, address, and then what the opcode
// says, which is pool, source and length, or length and value, or value.
pub fn decode_operation(bytes: &[u8], width: usize) -> Decoded
    requires { (3 ≤ width) × (width ≤ 4) }
    ensures { (result ≡ decoded_operation width bytes.now) × (result.size ≤ operation_most) }
{
    let opcode = opcode_in(bytes);
    let target = target_in(bytes);
    let address = address_in(bytes, width);
    let pool = pool_by(opcode, bytes, width);
    let source = source_by(opcode, bytes, width);
    let length = length_by(opcode, bytes, width);
    let value = value_by(opcode, bytes, width);
    Decoded {
        opcode,
        target,
        address,
        length,
        value,
        pool,
        source,
        size: size_by(opcode, width),
    }
}

// A record of version 1: target, 3 address bytes, value.
pub fn decode_record(bytes: &[u8]) -> Decoded
    ensures { result ≡ decoded_record bytes.now }
{
    Decoded {
        opcode: 0,
        target: byte_at(bytes, 0),
        address: read_address(bytes, 3, 1),
        length: 1,
        value: byte_at(bytes, 4),
        pool: 0,
        source: 0,
        size: RECORD_SIZE,
    }
}

// The record or operation of a version.
pub fn decode_item(bytes: &[u8], version: u8) -> Decoded
    ensures { (result ≡ decoded_item version bytes.now) × (result.size ≤ operation_most) }
{
    if version == 1 {
        return decode_record(bytes);
    }
    decode_operation(bytes, address_width(version))
}

// The operation of these numbers.
pub fn operation_of(item: Decoded) -> Operation
    ensures { result ≡ operation_of item }
{
    if item.opcode == 0 {
        return Operation::Write {
            target: item.target,
            address: item.address,
            value: item.value,
        };
    }
    if item.opcode == 1 {
        return Operation::Fill {
            target: item.target,
            address: item.address,
            length: item.length,
            value: item.value,
        };
    }
    Operation::Copy {
        target: item.target,
        address: item.address,
        pool: item.pool,
        source: item.source,
        length: item.length,
    }
}
