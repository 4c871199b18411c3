// An operation of a version 2 file as writes whose values stand in the file. Its numbers come from the one reader of operations.
#![tactic(auto)]

ghost use Rattle.std.specs.Prelude.{◌≡◌, ◌≤◌};
ghost use Rattle.compare_segment.specs.Segments.{source_step, copy_source, segment_at};

use bytes_operation::{Decoded, address_width, decode_operation};
use bytes_read::item_bytes;
use check_pool_entry::read_pool;

// `count` writes to a target, upward from an address, and the place behind the operation. The first value stands at `source`; where
// the values are copied each next one stands behind it, and else it is the value of all.
#[derive(Clone, Copy)]
pub struct Segment {
    pub target: u8,
    pub address: u32,
    pub count: u32,
    pub source: usize,
    pub copied: bool,
    pub next: usize,
}

// Where the bytes of a COPY stand.
fn copy_source(file: &[u8], directory: u32, item: Decoded) -> usize
    ensures { (result ≡ copy_source file.now directory item) × (result ≤ 0x200000000) }
{
    let pool = read_pool(file, directory, item.pool as u32);
    pool.offset as usize + item.source as usize
}

// How far the next value of a segment stands behind a value.
pub fn step_of(copied: bool) -> usize
    ensures { (result ≡ source_step copied) × (result ≤ 1) }
{
    copied as usize
}

// The operation at a place. The file was accepted, so that its rules are not tested again. The value of a WRITE or a FILL is its last
// byte.
#[tactic(auto, unfolding(crate::specs::Segments::segment_at), using(crate::proofs::Near::size_some))]
pub fn segment_at(file: &[u8], directory: u32, at: usize) -> Segment
    requires { at ≤ 0x1000000000000000 }
    ensures { (result ≡ segment_at file.now directory at) × (result.source ≤ 0x2000000000000000) }
{
    let item = decode_operation(item_bytes(file, at), address_width(2));
    let next = at + item.size;
    let copied = 2 <= item.opcode;
    let source = if copied {
        copy_source(file, directory, item)
    } else {
        next - 1
    };
    Segment {
        target: item.target,
        address: item.address,
        count: item.length,
        source,
        copied,
        next,
    }
}
