// The payloads of a repacked file: the opening's PCM bytes, and the waves.
#![tactic(auto)]

ghost use Rattle.std.specs.Prelude.{◌≡◌, ◌+◌, ◌*◌, ◌≤◌, length};
ghost use Rattle.bytes_read.specs.Put.{put};
ghost use Rattle.base_master.specs.Places.{wave_at};
ghost use Rattle.base_master.specs.Result.{pcm_bytes};
ghost use Rattle.repack_put_payloads.specs.Payloads.{waves_bytes, AllInside};
ghost use Rattle.base_format.specs.Size.{record_size, master_header_size, wave_records_size};

use base_format::{MASTER_HEADER_SIZE, RECORD_SIZE, WAVE_SIZE};
use repack_put_items::record_at;
use repack_wave_table::MOST;

// The values of the PCM records of an opening of so many records.
pub fn put_pcm(file: &[u8], count: usize, buffer: &mut [u8], at: usize)
    requires { (master_header_size + count * record_size ≤ length file.now) × (at + length (pcm_bytes file.now count master_header_size) ≤ length buffer.old) }
    ensures { buffer.new ≡ put (pcm_bytes file.now count 20) at buffer.old }
{
    let mut from = MASTER_HEADER_SIZE;
    let mut left = count;
    let mut place = at;
    while 0 < left {
        let record = record_at(file, from);
        let taken = record.target == 2;
        if taken {
            buffer[place] = record.value;
            place += 1;
        }
        from += RECORD_SIZE;
        left -= 1;
    }
}

// The values of a wave's records.
fn put_wave(file: &[u8], start: usize, buffer: &mut [u8], at: usize)
    requires { (start + wave_records_size ≤ length file.now) × (at + 256 ≤ length buffer.old) }
    ensures { buffer.new ≡ put (wave_at file.now start) at buffer.old }
{
    let mut from = start;
    let mut left = WAVE_SIZE;
    let mut place = at;
    while 0 < left {
        buffer[place] = file[from + 4];
        place += 1;
        from += RECORD_SIZE;
        left -= 1;
    }
}

// The first so many waves of the table.
pub fn put_waves(file: &[u8], places: &[u32; MOST], count: usize, buffer: &mut [u8], at: usize)
    requires { AllInside file.now places.now count × (at + count * 256 ≤ length buffer.old) }
    ensures { buffer.new ≡ put (waves_bytes file.now places.now 0 count) at buffer.old }
{
    let mut wave: usize = 0;
    let mut place = at;
    while wave < count {
        put_wave(file, places[wave] as usize, buffer, place);
        place += WAVE_SIZE;
        wave += 1;
    }
}
