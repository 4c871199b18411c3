// The writes of an item as numbers alone: no enum is made or taken apart for each of them.
ghost use Rattle.std.specs.Prelude.{◌≡◌};
ghost use Rattle.base_format.specs.Pool.{pool_at};
ghost use Rattle.play_item_span.specs.Span.{value_span, copy_span, span_of};

use base_format::{ENTRY_SIZE, Operation};
use bytes_read::read_u32;

// `count` writes to a target, upward from an address.
#[derive(Clone, Copy)]
pub struct Span {
    pub target: u8,
    pub address: u32,
    pub count: u32,
    // Of one value, or, where `copied`, of the bytes from `source` on of the pool at `offset`. It is a flag and no enum for speed, as above.
    pub copied: bool,
    pub value: u8,
    pub offset: u32,
    pub source: u32,
    // Where the next item stands.
    pub next: usize,
}

// So many writes of one value.
pub fn value_span(target: u8, address: u32, count: u32, value: u8, next: usize) -> Span
    ensures { result ≡ value_span target address count value next }
{
    Span {
        target,
        address,
        count,
        copied: false,
        value,
        offset: 0,
        source: 0,
        next,
    }
}

// Where the bytes of a pool begin, as its entry says.
fn pool_offset(file: &[u8], directory: u32, id: u16) -> u32
    ensures { result ≡ (pool_at file.now directory id).offset }
{
    read_u32(file, directory as usize + id as usize * ENTRY_SIZE + 12)
}

// So many writes of a pool's bytes.
pub fn copy_span(
    file: &[u8],
    directory: u32,
    target: u8,
    address: u32,
    id: u16,
    source: u32,
    count: u32,
    next: usize,
) -> Span
    ensures { result ≡ copy_span file.now directory target address id source count next }
{
    let offset = pool_offset(file, directory, id);
    Span {
        target,
        address,
        count,
        copied: true,
        value: 0,
        offset,
        source,
        next,
    }
}

// The writes of an operation.
pub fn span_of(file: &[u8], directory: u32, operation: Operation, next: usize) -> Span
    ensures { result ≡ span_of file.now directory operation next }
{
    match operation {
        Operation::Write {
            target,
            address,
            value,
        } => value_span(target, address, 1, value, next),
        Operation::Fill {
            target,
            address,
            length,
            value,
        } => value_span(target, address, length, value, next),
        Operation::Copy {
            target,
            address,
            pool,
            source,
            length,
        } => copy_span(file, directory, target, address, pool, source, length, next),
    }
}
