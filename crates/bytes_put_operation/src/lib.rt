// The operations of a pooled file (versions 2 to 4), each written at a place where it fits. The width of addresses is a parameter.
#![tactic(auto)]

ghost use Rattle.std.specs.Prelude.{◌≡◌, ◌+◌, ◌≤◌, length};
ghost use Rattle.base_format.specs.declared.operation.Operation.TheVariants.{Write, Fill, Copy};
ghost use Rattle.base_format.specs.Operation.{size_of};
ghost use Rattle.bytes_read.specs.Put.{put};
ghost use Rattle.bytes_put_operation.specs.Operations.{operation_bytes};

use bytes_put_operation_head::put_head;
use bytes_read::{put_u8, put_u16, put_u32};

// A WRITE.
pub fn put_write(buffer: &mut [u8], at: usize, width: usize, target: u8, address: u32, value: u8)
    requires { (3 ≤ width) × (width ≤ 4) × (at + size_of width 0 ≤ length buffer.old) }
    ensures { buffer.new ≡ put (operation_bytes width (Write target address value)) at buffer.old }
{
    let behind = 2 + width;
    put_head(buffer, at, width, 0, target, address);
    put_u8(buffer, at + behind, value);
}

// A FILL.
pub fn put_fill(
    buffer: &mut [u8],
    at: usize,
    width: usize,
    target: u8,
    address: u32,
    size: u32,
    value: u8,
)
    requires { (3 ≤ width) × (width ≤ 4) × (at + size_of width 1 ≤ length buffer.old) }
    ensures { buffer.new ≡ put (operation_bytes width (Fill target address size value)) at buffer.old }
{
    let behind = 2 + width;
    put_head(buffer, at, width, 1, target, address);
    put_u32(buffer, at + behind, size);
    put_u8(buffer, at + (behind + 4), value);
}

// A COPY.
pub fn put_copy(
    buffer: &mut [u8],
    at: usize,
    width: usize,
    target: u8,
    address: u32,
    pool: u16,
    source: u32,
    size: u32,
)
    requires { (3 ≤ width) × (width ≤ 4) × (at + size_of width 2 ≤ length buffer.old) }
    ensures { buffer.new ≡ put (operation_bytes width (Copy target address pool source size)) at buffer.old }
{
    let behind = 2 + width;
    put_head(buffer, at, width, 2, target, address);
    put_u16(buffer, at + behind, pool);
    put_u32(buffer, at + (behind + 2), source);
    put_u32(buffer, at + (behind + 2 + 4), size);
}
