// The header of a pooled file (versions 2 to 4): 40 bytes that are laid out alike, and in version 4 the period and 4 bytes more.
#![tactic(auto)]

ghost use Rattle.std.specs.Prelude.{◌≡◌, ◌≤◌, ◌<◌, length};
ghost use Rattle.base_format.specs.Bytes.{bytes_of_all};
ghost use Rattle.base_format.specs.Header.{header_size};
ghost use Rattle.base_format.specs.Written.{header_fields};
ghost use Rattle.bytes_read.specs.Put.{put};
ghost use Rattle.bytes_put_header.specs.Fields.{size_fields, period_fields};

use base_format::{CARDS_HEADER_SIZE, Header, POOLED_HEADER_SIZE};
use bytes_put_header_start::{put_counts, put_front};
use bytes_read::{put_u8, put_u16, put_u32};

// How many bytes the header has, as it says itself.
#[tactic(auto, using(crate::proofs::Fields::size_plain, crate::proofs::Fields::size_cards))]
fn size_field(version: u8) -> u16
    requires { (2 ≤ version) × (version ≤ 4) }
    ensures { result ≡ header_size version }
{
    if version < 4 {
        return POOLED_HEADER_SIZE as u16;
    }
    CARDS_HEADER_SIZE as u16
}

// The bytes 28 to 39.
fn put_sizes(buffer: &mut [u8], frames: u32, total: u32, size: u16, cards: u8)
    requires { 40 ≤ length buffer.old }
    ensures { buffer.new ≡ put (bytes_of_all (size_fields frames total size cards)) 28 buffer.old }
{
    put_u32(buffer, 28, frames);
    put_u32(buffer, 32, total);
    put_u16(buffer, 36, size);
    put_u8(buffer, 38, cards);
    put_u8(buffer, 39, 0);
}

// The bytes 40 to 47, which only version 4 has.
fn put_period(buffer: &mut [u8], period: u32)
    requires { 48 ≤ length buffer.old }
    ensures { buffer.new ≡ put (bytes_of_all (period_fields period)) 40 buffer.old }
{
    put_u32(buffer, 40, period);
    put_u32(buffer, 44, 0);
}

// The header.
#[tactic(auto, using(crate::proofs::Fields::size_least, crate::proofs::Fields::size_cards))]
pub fn put_header(buffer: &mut [u8], header: Header)
    requires { (header_size header.version ≤ length buffer.old) × (2 ≤ header.version) × (header.version ≤ 4) × (header.frame_start < 4294967296) }
    ensures { buffer.new ≡ put (bytes_of_all (header_fields header)) 0 buffer.old }
{
    let version = header.version;
    put_front(buffer, version, header.repeat, header.frame_count);
    put_counts(
        buffer,
        header.pool_count,
        header.initial_count,
        header.directory_offset,
        header.initial_start,
    );
    put_sizes(
        buffer,
        header.frame_start as u32,
        header.total_size,
        size_field(version),
        header.card_count,
    );
    if version < 4 {
        return;
    }
    put_period(buffer, header.frame_period);
}
