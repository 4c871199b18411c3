// Numbers written into a buffer, highest byte first. A number that does not fit is not written, so that no function asks anything of
// its place.
#![tactic(auto)]

ghost use Rattle.std.specs.Prelude.{◌≡◌, ◌≤◌};
ghost use Rattle.base_format.specs.Bytes.{bytes_of};
ghost use Rattle.bytes_store.specs.Put.{put};

use bytes_store::store;

// The lowest bytes of a number, as many as the width says, written at a place.
#[tactic(auto, using(bytes_store::proofs::Laws::number_passes))]
fn put_low<const WIDTH: usize>(buffer: &mut [u8], at: usize, value: u32)
    requires { WIDTH ≤ 4 }
    ensures { buffer.new ≡ put (bytes_of WIDTH value) at buffer.old }
{
    if buffer.len() < at {
        return;
    }
    if buffer.len() - at < WIDTH {
        return;
    }
    store::<WIDTH>(buffer, at, value);
}

// A byte, written at a place.
pub fn put_u8(buffer: &mut [u8], at: usize, value: u8)
    ensures { buffer.new ≡ put (bytes_of 1 value) at buffer.old }
{
    put_low::<1>(buffer, at, value as u32);
}

// The lowest two bytes of a number, written at a place.
pub fn put_low_u16(buffer: &mut [u8], at: usize, value: u32)
    ensures { buffer.new ≡ put (bytes_of 2 value) at buffer.old }
{
    put_low::<2>(buffer, at, value);
}

// A number in two bytes, written at a place.
pub fn put_u16(buffer: &mut [u8], at: usize, value: u16)
    ensures { buffer.new ≡ put (bytes_of 2 value) at buffer.old }
{
    put_low_u16(buffer, at, value as u32);
}

// The lowest three bytes of a number, written at a place.
pub fn put_u24(buffer: &mut [u8], at: usize, value: u32)
    ensures { buffer.new ≡ put (bytes_of 3 value) at buffer.old }
{
    put_low::<3>(buffer, at, value);
}

// A number in four bytes, written at a place.
pub fn put_u32(buffer: &mut [u8], at: usize, value: u32)
    ensures { buffer.new ≡ put (bytes_of 4 value) at buffer.old }
{
    put_low::<4>(buffer, at, value);
}
