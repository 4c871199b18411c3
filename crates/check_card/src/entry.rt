// The card at a place of a file of version 4.
ghost use Rattle.std.specs.Prelude.{◌≡◌, ◌+◌, ◌≤◌, length};
ghost use Rattle.base_format.specs.Bytes.{part};
ghost use Rattle.base_format.specs.Card.{card_at};

use base_format::CardRequirement;
use bytes_read::{byte_at, read_u32};

// The sixteen name bytes at a place.
fn read_id(file: &[u8], at: usize) -> [u8; 16]
    requires { at + 16 ≤ length file.now }
    ensures { result ≡ part file.now at 16 }
{
    let mut id = [0; 16];
    id.copy_from_slice(&file[at..at + 16]);
    id
}

// The card at a place.
pub fn read_card(file: &[u8], at: usize) -> CardRequirement
    requires { at + 32 ≤ length file.now }
    ensures { result ≡ card_at file.now at }
{
    CardRequirement {
        slot: byte_at(file, at),
        id_length: byte_at(file, at + 1),
        id_offset: read_u32(file, at + 4),
        bulk_start: read_u32(file, at + 8),
        bulk_length: read_u32(file, at + 12),
        id: read_id(file, at + 16),
    }
}
