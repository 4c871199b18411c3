// The items of a pooled file (versions 2 to 4): any operation, written as its version says, and a frame's count.
#![tactic(auto)]

ghost use Rattle.std.specs.Prelude.{◌≡◌, ◌+◌, ◌≤◌, length};
ghost use Rattle.base_format.specs.Written.{item_bytes};
ghost use Rattle.bytes_read.specs.Put.{put};
ghost use Rattle.bytes_put_items.specs.Items.{size_in, count_bytes};

use base_format::Operation;
use bytes_operation_size::address_width;
use bytes_put_operation::{put_copy, put_fill, put_write};
use bytes_read::put_u16;

// Any operation of a pooled version.
pub fn put_item(buffer: &mut [u8], at: usize, version: u8, operation: Operation)
    requires { (2 ≤ version) × (at + size_in version operation ≤ length buffer.old) }
    ensures { buffer.new ≡ put (item_bytes version operation) at buffer.old }
{
    let width = address_width(version);
    match operation {
        Operation::Write {
            target,
            address,
            value,
        } => put_write(buffer, at, width, target, address, value),
        Operation::Fill {
            target,
            address,
            length,
            value,
        } => put_fill(buffer, at, width, target, address, length, value),
        Operation::Copy {
            target,
            address,
            pool,
            source,
            length,
        } => put_copy(buffer, at, width, target, address, pool, source, length),
    }
}

// The count in front of a frame's operations.
#[tactic(auto, unfolding(base_format::specs::Bytes::bytes_of_all))]
pub fn put_count(buffer: &mut [u8], at: usize, count: u16)
    ensures { buffer.new ≡ put (count_bytes count) at buffer.old }
{
    put_u16(buffer, at, count);
}
