// The first 28 bytes of a pooled file's header: the letters, the version, the repeat flag, then counts and offsets.
#![tactic(auto)]

ghost use Rattle.std.specs.Prelude.{◌≡◌, cond, ◌≤◌, ◌<◌, length};
ghost use Rattle.base_format.specs.Bytes.{bytes_of_all};
ghost use Rattle.bytes_read.specs.Put.{put};
ghost use Rattle.bytes_put_header_start.specs.Fields.{front_fields, count_fields};

use bytes_read::{put_u8, put_u32};

// The repeat flag as a byte.
fn flag(repeat: bool) -> u8
    ensures { (result ≡ cond repeat 1 0) × (result < 256) }
{
    u8::from(repeat)
}

// The bytes 0 to 11.
pub fn put_front(buffer: &mut [u8], version: u8, repeat: bool, frames: u32)
    requires { 40 ≤ length buffer.old }
    ensures { buffer.new ≡ put (bytes_of_all (front_fields version repeat frames)) 0 buffer.old }
{
    put_u32(buffer, 0, 0x53475542);
    put_u8(buffer, 4, version);
    put_u8(buffer, 5, 16);
    put_u8(buffer, 6, flag(repeat));
    put_u8(buffer, 7, 0);
    put_u32(buffer, 8, frames);
}

// The bytes 12 to 27.
pub fn put_counts(buffer: &mut [u8], pools: u32, operations: u32, directory: u32, opening: u32)
    requires { 40 ≤ length buffer.old }
    ensures { buffer.new ≡ put (bytes_of_all (count_fields pools operations directory opening)) 12 buffer.old }
{
    put_u32(buffer, 12, pools);
    put_u32(buffer, 16, operations);
    put_u32(buffer, 20, directory);
    put_u32(buffer, 24, opening);
}
