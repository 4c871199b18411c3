// Repacking, its first half: the waves of a master, where they are used, and the size that its frames have when they are repacked.
#![tactic(auto)]

ghost use Rattle.std.specs.Prelude.{◌≡◌, ◌+◌, ◌*◌, ◌≤◌, ◌<◌, length, set};
ghost use Rattle.base_master.specs.Places.{frames_end};
ghost use Rattle.repack_wave_table.specs.Table.{Table};
ghost use Rattle.base_master.specs.Uses.{uses_at, all_uses};
ghost use Rattle.repack_measure.specs.Measured.{notes, notes_over, Noted, MeasuredFrame, Measured};
ghost use Rattle.base_format.specs.Size.{record_size, wave_records_size, file_limit};

use base_format::{COUNT_SIZE, RECORD_SIZE, WAVE_RECORDS_SIZE, WAVE_SIZE};
use bytes_operation_size::operation_size;
use bytes_read::read_u16;
use repack_put_items::WIDTH;
use repack_wave_run::starts_wave;
use repack_wave_table::{BUCKETS, MOST, add_wave};

// One more than the waves that a file can use: behind the last place that is noted stands a 0.
pub const SPOTS: usize = 11469;

// How many waves are known, how often they are used, and the size of what was measured.
#[derive(Clone, Copy)]
pub struct Measure {
    pub waves: usize,
    pub uses: usize,
    pub size: usize,
}

// Notes a use of a wave: its place and the wave's number.
fn note_use(
    spots: &mut [u32; SPOTS],
    numbers: &mut [u16; MOST],
    uses: usize,
    at: usize,
    number: usize,
)
    requires { (length spots.old ≡ 11469) × (length numbers.old ≡ 11468) × (uses < 11468) × (at < 4294967296) × (number < 65536) }
    ensures { (spots.new ≡ set spots.old uses at) × (numbers.new ≡ set numbers.old uses number) }
{
    spots[uses] = at as u32;
    numbers[uses] = number as u16;
}

// A frame of so many records: what its operations take, with its waves added to the table and their uses noted.
fn measure_frame(
    file: &[u8],
    start: usize,
    count: usize,
    known: usize,
    noted: usize,
    heads: &mut [u16; BUCKETS],
    next: &mut [u16; MOST],
    places: &mut [u32; MOST],
    spots: &mut [u32; SPOTS],
    numbers: &mut [u16; MOST],
) -> Measure
    requires { Table file.now heads.old next.old places.old known × Noted file.now places.old spots.old numbers.old known noted
        × (start + count * record_size ≤ length file.now) × (known * wave_records_size ≤ start) × (noted * wave_records_size ≤ start) × (length file.now ≤ file_limit) }
    ensures { MeasuredFrame file.now start count known noted places.old spots.old
        heads.new next.new places.new spots.new numbers.new result.waves result.uses result.size
        × (notes heads.new next.new places.new result.waves spots.new numbers.new result.uses
        ≡ notes_over file.now (notes heads.old next.old places.old known spots.old numbers.old noted)
        (uses_at file.now count start)) }
{
    let write = operation_size(WIDTH, 0);
    let copy = operation_size(WIDTH, 2);
    let mut at = start;
    let mut left = count;
    let mut waves = known;
    let mut uses = noted;
    let mut size: usize = 0;
    while 0 < left {
        if starts_wave(file, at, left) {
            let wave = add_wave(file, at, waves, heads, next, places);
            note_use(spots, numbers, uses, at, wave.number);
            waves = wave.waves;
            uses += 1;
            at += WAVE_RECORDS_SIZE;
            left -= WAVE_SIZE;
            size += copy;
        } else {
            at += RECORD_SIZE;
            left -= 1;
            size += write;
        }
    }
    Measure { waves, uses, size }
}

// So many frames from a place, with an empty table and nothing noted.
pub fn measure_frames(
    file: &[u8],
    start: usize,
    count: usize,
    heads: &mut [u16; BUCKETS],
    next: &mut [u16; MOST],
    places: &mut [u32; MOST],
    spots: &mut [u32; SPOTS],
    numbers: &mut [u16; MOST],
) -> Measure
    requires { Table file.now heads.old next.old places.old 0 × Noted file.now places.old spots.old numbers.old 0 0
        × (frames_end file.now count start ≤ length file.now) × (length file.now ≤ file_limit) }
    ensures { Measured file.now start count places.new spots.new numbers.new result.waves result.uses result.size
        × (notes heads.new next.new places.new result.waves spots.new numbers.new result.uses
        ≡ notes_over file.now (notes heads.old next.old places.old 0 spots.old numbers.old 0)
        (all_uses file.now count start)) }
{
    let mut at = start;
    let mut left = count;
    let mut waves: usize = 0;
    let mut uses: usize = 0;
    let mut size: usize = 0;
    while 0 < left {
        let records = read_u16(file, at) as usize;
        let frame = measure_frame(
            file,
            at + COUNT_SIZE,
            records,
            waves,
            uses,
            heads,
            next,
            places,
            spots,
            numbers,
        );
        waves = frame.waves;
        uses = frame.uses;
        size += COUNT_SIZE + frame.size;
        at += COUNT_SIZE + records * RECORD_SIZE;
        left -= 1;
    }
    Measure { waves, uses, size }
}
