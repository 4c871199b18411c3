// The quick tests of a range, and of the pool of a COPY. They only say yes.
#![tactic(auto)]

ghost use Rattle.std.specs.Prelude.{◌≡◌};
ghost use Rattle.check_fast_rules.specs.Quick.{out_of_bulk, whole_wave, pool_fits};

use bytes_read::{byte_at, read_u32};

// Whether a range is empty, starts before another or does not end before `end`.
#[tactic(auto, unfolding(crate::specs::Quick::out_of_bulk))]
pub fn out_of_range(address: u32, length: u32, start: u64, end: u64) -> bool
    ensures { result ≡ out_of_bulk address length start end }
{
    length == 0 || (address as u64) < start || end <= address as u64 + length as u64
}

// The same for a start of four bytes.
pub fn out_of_bulk(address: u32, length: u32, start: u32, end: u64) -> bool
    ensures { result ≡ out_of_bulk address length start end }
{
    out_of_range(address, length, start as u64, end)
}

// Whether a COPY takes a wave whole, to where one stands: a pool of kind 1 has 256 bytes, so that no other one is allowed. The numbers are
// compared whole, because the compiler reads one in a single load only if nothing asks for its last byte alone.
#[tactic(auto, unfolding(crate::specs::Quick::whole_wave))]
fn whole_wave(address: u32, source: u32, length: u32) -> bool
    ensures { result ≡ whole_wave address source length }
{
    address % 256 == 0 && source == 0 && length == 256
}

// Whether the pool with an entry has the kind, and the bytes that a COPY takes.
#[tactic(auto, unfolding(crate::specs::Quick::pool_fits))]
pub fn pool_fits(entry: &[u8], kind: u64, address: u32, source: u32, length: u32) -> bool
    ensures { result ≡ pool_fits entry.now kind address source length }
{
    source as u64 + length as u64 <= read_u32(entry, 4) as u64
        && byte_at(entry, 2) as u64 == kind
        && (kind != 1 || whole_wave(address, source, length))
}
