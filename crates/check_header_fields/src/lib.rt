// The fields of a header, by the version.
#![tactic(auto)]

ghost use Rattle.std.specs.Prelude.{◌≡◌};
ghost use Rattle.base_format.specs.Header.{period_of, card_count, plain_header, pooled_header, header_of};

use base_format::{Header, MASTER_HEADER_SIZE, RECORD_SIZE};
use bytes_read::{byte_at, read_u32};

#[tactic(auto, unfolding(base_format::specs::Header::plain_header))]
fn plain_header(file: &[u8]) -> Header
    ensures { result ≡ plain_header file.now }
{
    let records = read_u32(file, 12);
    Header {
        version: 1,
        repeat: byte_at(file, 6) == 1,
        frame_period: 0,
        card_count: 0,
        frame_count: read_u32(file, 8),
        pool_count: 0,
        initial_count: records,
        directory_offset: MASTER_HEADER_SIZE as u32,
        initial_start: MASTER_HEADER_SIZE as u32,
        frame_start: MASTER_HEADER_SIZE + records as usize * RECORD_SIZE,
        total_size: read_u32(file, 16),
    }
}

// The period of version 4.
#[tactic(auto, unfolding(base_format::specs::Header::period_of))]
fn period_of(file: &[u8], version: u8) -> u32
    ensures { result ≡ period_of version file.now }
{
    if version == 4 { read_u32(file, 40) } else { 0 }
}

// The card count of version 4.
#[tactic(auto, unfolding(base_format::specs::Header::card_count))]
fn card_count(file: &[u8], version: u8) -> u8
    ensures { result ≡ card_count version file.now }
{
    if version == 4 { byte_at(file, 38) } else { 0 }
}

#[tactic(auto, unfolding(base_format::specs::Header::pooled_header))]
fn pooled_header(file: &[u8], version: u8) -> Header
    ensures { result ≡ pooled_header version file.now }
{
    Header {
        version,
        repeat: byte_at(file, 6) == 1,
        frame_period: period_of(file, version),
        card_count: card_count(file, version),
        frame_count: read_u32(file, 8),
        pool_count: read_u32(file, 12),
        initial_count: read_u32(file, 16),
        directory_offset: read_u32(file, 20),
        initial_start: read_u32(file, 24),
        frame_start: read_u32(file, 28) as usize,
        total_size: read_u32(file, 32),
    }
}

// The fields of the header, by the version.
#[tactic(auto, unfolding(base_format::specs::Header::header_of))]
pub fn header_of(file: &[u8]) -> Header
    ensures { result ≡ header_of file.now }
{
    let version = byte_at(file, 4);
    if version == 1 {
        plain_header(file)
    } else {
        pooled_header(file, version)
    }
}
