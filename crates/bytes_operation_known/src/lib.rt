// The reader's numbers where a test or an earlier pass has told the opcode: of a WRITE or a FILL, and of a COPY. No load waits for the
// opcode, and the compiler joins the bytes of a number to one load. Each is the number of crate bytes_operation (proofs/Laws).
#![tactic(auto)]

ghost use Rattle.std.specs.Prelude.{◌≡◌, ◌≤◌};
ghost use Rattle.base_format.specs.Size.{operation_most};
ghost use Rattle.bytes_operation_known.specs.Known.{extra_of, fill_length, fill_size, fill_value, write_value, copy_pool, copy_source, copy_length};

use bytes_operation::{opcode_in, operation_size};
use bytes_read::{byte_at, read_u16, read_u32};

// What a FILL has more than a WRITE.
fn extra(opcode: u8, more: usize) -> usize
    ensures { result ≡ extra_of opcode more }
{
    if opcode == 0 {
        return 0;
    }
    more
}

// How many writes it makes. The length of a FILL is read in either case.
pub fn fill_length_in(bytes: &[u8], width: usize) -> u32
    requires { (3 ≤ width) × (width ≤ 4) }
    ensures { result ≡ fill_length width bytes.now }
{
    let opcode = opcode_in(bytes);
    let length = read_u32(bytes, 2 + width);
    if opcode == 0 {
        return 1;
    }
    length
}

// How many bytes it has: a WRITE's size, and for a FILL the difference to it.
pub fn fill_size_in(bytes: &[u8], width: usize) -> usize
    requires { (3 ≤ width) × (width ≤ 4) }
    ensures { (result ≡ fill_size width bytes.now) × (result ≤ operation_most) }
{
    let write = operation_size(width, 0);
    let fill = operation_size(width, 1);
    write + extra(opcode_in(bytes), fill - write)
}

// The value of a WRITE or a FILL: behind the address, and in a FILL behind its length.
pub fn fill_value_in(bytes: &[u8], width: usize) -> u8
    requires { (3 ≤ width) × (width ≤ 4) }
    ensures { result ≡ fill_value width bytes.now }
{
    let opcode = opcode_in(bytes);
    byte_at(bytes, 2 + width + extra(opcode, 4))
}

// The value of a WRITE.
pub fn write_value_in(bytes: &[u8], width: usize) -> u8
    requires { (3 ≤ width) × (width ≤ 4) }
    ensures { result ≡ write_value width bytes.now }
{
    byte_at(bytes, 2 + width)
}

// The pool of a COPY.
pub fn copy_pool_in(bytes: &[u8], width: usize) -> u16
    requires { (3 ≤ width) × (width ≤ 4) }
    ensures { result ≡ copy_pool width bytes.now }
{
    read_u16(bytes, 2 + width)
}

// The source of a COPY.
pub fn copy_source_in(bytes: &[u8], width: usize) -> u32
    requires { (3 ≤ width) × (width ≤ 4) }
    ensures { result ≡ copy_source width bytes.now }
{
    read_u32(bytes, 4 + width)
}

// The length of a COPY.
pub fn copy_length_in(bytes: &[u8], width: usize) -> u32
    requires { (3 ≤ width) × (width ≤ 4) }
    ensures { result ≡ copy_length width bytes.now }
{
    read_u32(bytes, 8 + width)
}
