// The directory of a repacked file: the PCM pool, if there is one, and the waves.
#![tactic(auto)]

ghost use Rattle.std.specs.Prelude.{◌≡◌, ◌+◌, ◌*◌, ◌≤◌, ◌<◌, length};
ghost use Rattle.bytes_read.specs.Put.{put};
ghost use Rattle.repack_put_directory.specs.Directory.{wave_entries, directory_of};
ghost use Rattle.base_format.specs.Size.{entry_size};

use base_format::{ENTRY_SIZE, POOLED_HEADER_SIZE, WAVE_SIZE};
use bytes_put_tables::put_entry;

// The entries of so many waves, from an id on.
fn put_wave_entries(buffer: &mut [u8], at: usize, id: usize, count: usize, start: usize)
    requires { (at + count * entry_size ≤ length buffer.old) × (id + count < 65536) × (start + count * 256 < 4294967296) }
    ensures { buffer.new ≡ put (wave_entries id start count) at buffer.old }
{
    let mut place = at;
    let mut wave = id;
    let mut offset = start;
    let mut left = count;
    while 0 < left {
        put_entry(
            buffer,
            place,
            wave as u16,
            1,
            WAVE_SIZE as u32,
            offset as u32,
        );
        place += ENTRY_SIZE;
        wave += 1;
        offset += WAVE_SIZE;
        left -= 1;
    }
}

// The directory behind the header, with the first payload at `start`.
pub fn put_directory(buffer: &mut [u8], pcm: usize, waves: usize, start: usize)
    requires { (40 + length (directory_of pcm waves start) ≤ length buffer.old) × (waves ≤ 11468) × (start + pcm + waves * 256 < 4294967296) }
    ensures { buffer.new ≡ put (directory_of pcm waves start) 40 buffer.old }
{
    if pcm == 0 {
        put_wave_entries(buffer, POOLED_HEADER_SIZE, 0, waves, start);
        return;
    }
    put_entry(buffer, POOLED_HEADER_SIZE, 0, 2, pcm as u32, start as u32);
    put_wave_entries(
        buffer,
        POOLED_HEADER_SIZE + ENTRY_SIZE,
        1,
        waves,
        start + pcm,
    );
}
