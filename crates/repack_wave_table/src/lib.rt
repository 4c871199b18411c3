// The waves of a master, told apart by their bytes: a table of the places where each was first used, with chains of the waves that
// share a bucket.
#![tactic(auto)]

ghost use Rattle.std.specs.Prelude.{◌≡◌, ◌+◌, ◌*◌, ◌≤◌, ◌<◌, length};
ghost use Rattle.base_format.specs.Repack.{place_of};
ghost use Rattle.base_format.specs.Size.{wave_records_size, file_limit};
ghost use Rattle.base_master.specs.Places.{wave_at};
ghost use Rattle.repack_wave_hash.specs.Hash.{bucket_at};
ghost use Rattle.repack_wave_table.specs.Table.{waves_in, found, Chain, Table, Added};

use repack_wave_hash::{bucket, same_wave};

// The buckets, and the most waves that a file of 0xE00000 bytes holds: each takes 256 records of 5 bytes.
pub const BUCKETS: usize = 16384;

pub const MOST: usize = 11468;

// The wave of a chain that has the bytes of the wave at a place, counted from 1, or 0.
fn find_wave(
    file: &[u8],
    at: usize,
    first: usize,
    next: &[u16; MOST],
    places: &[u32; MOST],
) -> usize
    requires { Chain file.now next.now places.now (bucket_at file.now at) first × (at + wave_records_size ≤ length file.now) × (first ≤ 11468) }
    ensures { result ≡ found file.now places.now at first }
{
    let mut i = first;
    while 0 < i {
        let k = i - 1;
        if same_wave(file, places[k] as usize, at) {
            return i;
        }
        i = next[k] as usize;
    }
    0
}

// The place of a wave among the first `count` of the table, or `count` where it is not among them.
fn wave_number(
    file: &[u8],
    at: usize,
    bucket: usize,
    count: usize,
    heads: &[u16; BUCKETS],
    next: &[u16; MOST],
    places: &[u32; MOST],
) -> usize
    requires { Table file.now heads.now next.now places.now count × (bucket ≡ bucket_at file.now at) × (at + wave_records_size ≤ length file.now) }
    ensures { result ≡ place_of (waves_in file.now places.now count) (wave_at file.now at) }
{
    let first = heads[bucket] as usize;
    let found = find_wave(file, at, first, next, places);
    if found == 0 {
        return count;
    }
    found - 1
}

// The number of a wave, counted from 0, and how many waves are known with it.
#[derive(Clone, Copy)]
pub struct Numbered {
    pub number: usize,
    pub waves: usize,
}

// Adds the wave at a place to the first `count` of the table, if it is not among them.
pub fn add_wave(
    file: &[u8],
    at: usize,
    count: usize,
    heads: &mut [u16; BUCKETS],
    next: &mut [u16; MOST],
    places: &mut [u32; MOST],
) -> Numbered
    requires { Table file.now heads.old next.old places.old count × (at + wave_records_size ≤ length file.now) × (count * wave_records_size ≤ at) × (length file.now ≤ file_limit) }
    ensures { Added file.now heads.old next.old places.old count at
        heads.new next.new places.new result.waves result.number }
{
    let bucket = bucket(file, at);
    let number = wave_number(file, at, bucket, count, heads, next, places);
    if number < count {
        return Numbered {
            number,
            waves: count,
        };
    }
    next[count] = heads[bucket];
    heads[bucket] = (count + 1) as u16;
    places[count] = at as u32;
    Numbered {
        number,
        waves: count + 1,
    }
}
