// What every operation of a pooled file begins with: its opcode, target and address. The width of addresses, 3 or 4 bytes, is a parameter.
#![tactic(auto)]

ghost use Rattle.std.specs.Prelude.{◌≡◌, ◌≤◌, length};
ghost use Rattle.base_format.specs.Bytes.{bytes_of};
ghost use Rattle.bytes_read.specs.Put.{put};
ghost use Rattle.bytes_put_fields.specs.Fields.{put_fields};
ghost use Rattle.bytes_put_operation_head.specs.Head.{head_fields};

use bytes_read::{put_u8, put_u24, put_u32};

// An address.
fn put_address(buffer: &mut [u8], at: usize, width: usize, address: u32)
    requires { (3 ≤ width) × (width ≤ 4) }
    ensures { buffer.new ≡ put (bytes_of width address) at buffer.old }
{
    if width == 3 {
        put_u24(buffer, at, address);
        return;
    }
    put_u32(buffer, at, address);
}

// The three of them.
pub fn put_head(buffer: &mut [u8], at: usize, width: usize, opcode: u8, target: u8, address: u32)
    requires { (3 ≤ width) × (width ≤ 4) × (at ≤ length buffer.old) }
    ensures { buffer.new ≡ put_fields at (head_fields width opcode target address) buffer.old }
{
    put_u8(buffer, at, opcode);
    put_u8(buffer, at + 1, target);
    put_address(buffer, at + 2, width, address);
}
