// What the rules 1, 5 and 6 ask of a header: its size, its flags with the reserved bytes, and its period.
#![tactic(auto)]

ghost use Rattle.std.specs.Prelude.{◌≡◌};
ghost use Rattle.base_format.specs.Header.{header_size, reserved_wrong, flags_wrong, period_wrong};

use base_format::{CARDS_HEADER_SIZE, MASTER_HEADER_SIZE, POOLED_HEADER_SIZE};
use bytes_read::{byte_at, read_u16, read_u32};

// How long the header of a version is.
#[tactic(auto, unfolding(base_format::specs::Header::header_size))]
pub fn header_size(version: u8) -> usize
    ensures { result ≡ header_size version }
{
    match version {
        4 => CARDS_HEADER_SIZE,
        2 | 3 => POOLED_HEADER_SIZE,
        _ => MASTER_HEADER_SIZE,
    }
}

#[tactic(auto, unfolding(base_format::specs::Header::reserved_wrong))]
fn reserved_wrong(file: &[u8], version: u8) -> bool
    ensures { result ≡ reserved_wrong version file.now }
{
    read_u16(file, 36) as usize != header_size(version)
        || byte_at(file, 39) != 0
        || if version == 4 {
            8 < byte_at(file, 38) || read_u32(file, 44) != 0
        } else {
            byte_at(file, 38) != 0
        }
}

// What rule 5 asks.
#[tactic(auto, unfolding(base_format::specs::Header::flags_wrong))]
pub fn flags_wrong(file: &[u8], version: u8) -> bool
    ensures { result ≡ flags_wrong version file.now }
{
    1 < byte_at(file, 6) || byte_at(file, 7) != 0 || version != 1 && reserved_wrong(file, version)
}

#[tactic(auto, unfolding(base_format::specs::Header::period_wrong))]
pub fn period_wrong(period: u32) -> bool
    ensures { result ≡ period_wrong period }
{
    period != 0 && !(48000..=48000000).contains(&period)
}
