// Numbers of a file, highest byte first, at a width of one to four bytes. Past the file's end every byte reads as 0, so that no function
// asks anything of its place. The functions that write numbers are the crate bytes_put's, passed on here.
#![tactic(auto)]

ghost use Rattle.std.specs.Prelude.{◌≡◌, ◌+◌, ◌*◌, ◌^◌, ◌≤◌, ◌<◌, min, ltb, length};
ghost use Rattle.base_format.specs.Bytes.{byte, be, part};

use bytes_load::load;
pub use bytes_put::{put_low_u16, put_u8, put_u16, put_u24, put_u32};

// The byte at a place.
#[tactic(auto, using(base_format::proofs::Bytes::byte_past))]
pub fn byte_at(file: &[u8], place: usize) -> u8
    ensures { result ≡ byte file.now place }
{
    file.get(place).copied().unwrap_or(0)
}

// The number in `width` bytes from `at`. The reads of a fixed width come here only near the file's end.
fn read_be(file: &[u8], at: usize, width: usize) -> u32
    requires { (width ≤ 4) × (at + width < 2 ^ 64) }
    ensures { result ≡ be width file.now at }
{
    let mut value = 0;
    for i in 0..width {
        value = value * 256 + byte_at(file, at + i) as u32;
    }
    value
}

// The number in as many bytes as the width says.
#[tactic(auto, using(base_format::proofs::Bytes::be_past))]
fn read<const WIDTH: usize>(file: &[u8], at: usize) -> u32
    requires { WIDTH ≤ 4 }
    ensures { result ≡ be WIDTH file.now at }
{
    if file.len() < at {
        return 0;
    }
    if file.len() - at < WIDTH {
        return read_be(file, at, WIDTH);
    }
    load::<WIDTH>(file, at)
}

// The number in two bytes.
pub fn read_u16(file: &[u8], at: usize) -> u16
    ensures { result ≡ be 2 file.now at }
{
    read::<2>(file, at) as u16
}

// The number in three bytes.
pub fn read_u24(file: &[u8], at: usize) -> u32
    ensures { result ≡ be 3 file.now at }
{
    read::<3>(file, at)
}

// The number in four bytes.
pub fn read_u32(file: &[u8], at: usize) -> u32
    ensures { result ≡ be 4 file.now at }
{
    read::<4>(file, at)
}

// The 16 bytes from a place on, which are all there. A read in them needs no test of the file's end once it is compiled.
pub fn window(file: &[u8], at: usize) -> &[u8]
    requires { at + 16 ≤ length file.now }
    ensures { result.now ≡ part file.now at 16 }
{
    &file[at..at + 16]
}

// The bytes from a place on that hold every operation, or what is left of the file where it has fewer.
pub fn item_bytes(file: &[u8], at: usize) -> &[u8]
    ensures { result.now ≡ part file.now at 16 }
{
    if file.len() < at {
        return &file[0..0];
    }
    if file.len() - at < 16 {
        return &file[at..];
    }
    window(file, at)
}

// The smaller of two numbers.
pub fn smaller(a: usize, b: usize) -> usize
    ensures { (result ≡ min a b) × (result ≤ a) × (result ≤ b) }
{
    a.min(b)
}

// Whether so many bytes, or elements, from a place on pass a size.
pub fn passes(size: usize, at: usize, count: usize) -> bool
    ensures { result ≡ ltb size (at + count) }
{
    size < at || size - at < count
}
