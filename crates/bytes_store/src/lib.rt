// The lowest bytes of a number, stored highest first where there is room for them.
#![tactic(auto)]

ghost use Rattle.std.specs.Prelude.{◌≡◌, ◌+◌, ◌≤◌, length};
ghost use Rattle.base_format.specs.Bytes.{bytes_of};
ghost use Rattle.bytes_store.specs.Put.{put};

// The lowest bytes of a number, as many as the width says. Each width of 1, 2 or 4 compiles to one store.
#[tactic(auto, using(crate::proofs::Low::put_low))]
pub fn store<const WIDTH: usize>(buffer: &mut [u8], at: usize, value: u32)
    requires { (WIDTH ≤ 4) × (at + WIDTH ≤ length buffer.old) }
    ensures { buffer.new ≡ put (bytes_of WIDTH value) at buffer.old }
{
    buffer[at..at + WIDTH].copy_from_slice(&value.to_be_bytes()[4 - WIDTH..]);
}
