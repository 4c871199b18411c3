// Writes the two parts of an index: its entries, by walking over the frames, and its trailer.
#![tactic(auto)]

ghost use Rattle.std.specs.Prelude.{◌≡◌, ◌+◌, ◌*◌, ◌^◌, ◌≤◌, ◌<◌, length};
ghost use Rattle.base_format.specs.Bytes.{bytes_of_all};
ghost use Rattle.bytes_read.specs.Put.{put};
ghost use Rattle.index_laws.specs.Built.{entries_walk, built_trailer};

use base_format::{INDEX_ENTRY_SIZE, INDEX_SPACING};
use bytes_read::put_u32;
use index_frames::frames_end;

// So many entries, written from the buffer's start. The place of the next one is where 64 frames end.
pub fn put_entries(file: &[u8], version: u8, entries: usize, start: usize, buffer: &mut [u8])
    requires { (entries * 4 ≤ length buffer.old) × (start < 2 ^ 32) }
    ensures { buffer.new ≡ put (bytes_of_all (entries_walk version file.now entries start)) 0 buffer.old }
{
    let mut at = start;
    for i in 0..entries {
        put_u32(buffer, i * INDEX_ENTRY_SIZE, at as u32);
        at = frames_end(file, version, INDEX_SPACING, at);
    }
}

// The trailer behind so many entries: its place is the distance too.
pub fn put_trailer(place: usize, entries: usize, total: u32, buffer: &mut [u8])
    requires { (place ≡ entries * 4) × (place < 2 ^ 32) × (place + 12 ≤ length buffer.old) }
    ensures { buffer.new ≡ put (bytes_of_all (built_trailer entries total)) place buffer.old }
{
    put_u32(buffer, place, place as u32);
    put_u32(buffer, place + 4, entries as u32);
    put_u32(buffer, place + 8, total);
}
