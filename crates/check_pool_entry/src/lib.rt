// The entry of a pool in the directory, and a part of a file.
#![tactic(auto)]

ghost use Rattle.std.specs.Prelude.{◌≡◌};
ghost use Rattle.base_format.specs.Bytes as bytes;
ghost use Rattle.base_format.specs.Pool.{pool_at};
ghost use Rattle.check_pool_entry.specs.Entry.{entry_of};

use base_format::{ENTRY_SIZE, Header, Pool};
use bytes_read::{byte_at, read_u32};

// The entry of a pool.
pub fn read_pool(file: &[u8], directory: u32, id: u32) -> Pool
    ensures { result ≡ pool_at file.now directory id }
{
    let at = directory as usize + id as usize * ENTRY_SIZE;
    Pool {
        kind: byte_at(file, at + 2),
        size: read_u32(file, at + 4),
        offset: read_u32(file, at + 12),
    }
}

// The entry of a pool by its id, all 0 for an unknown pool.
#[tactic(auto, unfolding(crate::specs::Entry::entry_of))]
pub fn entry_of(file: &[u8], header: Header, id: u16) -> Pool
    ensures { result ≡ entry_of file.now header id }
{
    if (id as u32) < header.pool_count {
        read_pool(file, header.directory_offset, id as u32)
    } else {
        Pool {
            kind: 0,
            size: 0,
            offset: 0,
        }
    }
}

// So many bytes of a file from a place, as far as they are there.
pub fn part(file: &[u8], place: usize, size: usize) -> &[u8]
    ensures { result.now ≡ bytes.part file.now place size }
{
    let rest = &file[place.min(file.len())..];
    &rest[..size.min(rest.len())]
}
