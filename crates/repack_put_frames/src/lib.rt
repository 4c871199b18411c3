// The frames of a repacked file: each a count of its operations, then a COPY for each wave and a WRITE for each other record. Where a
// wave starts, and which one, was noted when the master was measured.
#![tactic(auto)]

ghost use Rattle.std.specs.Prelude.{◌≡◌, ◌+◌, ◌*◌, ◌≤◌, ◌<◌, length};
ghost use Rattle.base_format.specs.Bytes.{be};
ghost use Rattle.base_format.specs.Size.{record_size};
ghost use Rattle.bytes_read.specs.Put.{put};
ghost use Rattle.base_master.specs.Places.{frames_end};
ghost use Rattle.base_master.specs.Result.{piece_count};
ghost use Rattle.base_master.specs.Uses.{uses_at, Marked, MarkedFrames, pieces_by, frame_by, frames_by};
ghost use Rattle.repack_put_frames.specs.Frames.{NotedLists};

use base_format::{COUNT_SIZE, RECORD_SIZE, WAVE_RECORDS_SIZE, WAVE_SIZE};
use bytes_operation_size::operation_size;
use bytes_put_items::put_count;
use bytes_read::read_u16;
use repack_measure::SPOTS;
use repack_put_items::{WIDTH, put_record, put_wave_copy};
use repack_wave_table::MOST;

// How many pieces were written, where the last one ends, and how many uses of waves there are up to there.
#[derive(Clone, Copy)]
pub struct Pieces {
    pub count: usize,
    pub next: usize,
    pub used: usize,
}

// A noted place.
fn noted_place(spot: u32) -> usize
    ensures { result ≡ spot }
{
    spot as usize
}

// The pieces of so many records from a place. `used` uses come before; the pool of the first wave is `base`.
fn put_pieces(
    file: &[u8],
    start: usize,
    count: usize,
    base: usize,
    spots: &[u32; SPOTS],
    numbers: &[u16; MOST],
    used: usize,
    buffer: &mut [u8],
    at: usize,
) -> Pieces
    requires { NotedLists spots.now numbers.now × Marked file.now spots.now used count start × (0 < start) × (start + count * record_size ≤ length file.now) × (base ≤ 1)
        × (at + length (pieces_by numbers.now base used file.now count start) ≤ length buffer.old) }
    ensures { (buffer.new ≡ put (pieces_by numbers.now base used file.now count start) at buffer.old)
        × (result.count ≡ piece_count file.now count start) × (result.next ≡ at + length (pieces_by numbers.now base used file.now count start))
        × (result.used ≡ used + length (uses_at file.now count start)) }
{
    let write = operation_size(WIDTH, 0);
    let copy = operation_size(WIDTH, 2);
    let mut from = start;
    let mut left = count;
    let mut place = at;
    let mut pieces: usize = 0;
    let mut uses = used;
    while 0 < left {
        if noted_place(spots[uses]) == from {
            let pool = base + numbers[uses] as usize;
            put_wave_copy(file, from, pool as u16, buffer, place);
            uses += 1;
            from += WAVE_RECORDS_SIZE;
            left -= WAVE_SIZE;
            place += copy;
        } else {
            put_record(file, from, buffer, place);
            from += RECORD_SIZE;
            left -= 1;
            place += write;
        }
        pieces += 1;
    }
    Pieces {
        count: pieces,
        next: place,
        used: uses,
    }
}

// The frame at a place: its count stands in front of its pieces, which are counted as they are written.
fn put_frame(
    file: &[u8],
    from: usize,
    base: usize,
    spots: &[u32; SPOTS],
    numbers: &[u16; MOST],
    used: usize,
    buffer: &mut [u8],
    at: usize,
) -> Pieces
    requires { NotedLists spots.now numbers.now × Marked file.now spots.now used (be 2 file.now from) (from + 2)
        × (from + 2 + be 2 file.now from * record_size ≤ length file.now) × (base ≤ 1)
        × (at + length (frame_by numbers.now base used file.now from) ≤ length buffer.old) }
    ensures { (buffer.new ≡ put (frame_by numbers.now base used file.now from) at buffer.old)
        × (result.next ≡ at + length (frame_by numbers.now base used file.now from))
        × (result.used ≡ used + length (uses_at file.now (be 2 file.now from) (from + 2))) }
{
    let records = read_u16(file, from) as usize;
    let start = from + COUNT_SIZE;
    let behind = at + COUNT_SIZE;
    let pieces = put_pieces(
        file, start, records, base, spots, numbers, used, buffer, behind,
    );
    put_count(buffer, at, pieces.count as u16);
    pieces
}

// So many frames from a place.
pub fn put_frames(
    file: &[u8],
    start: usize,
    count: usize,
    base: usize,
    spots: &[u32; SPOTS],
    numbers: &[u16; MOST],
    buffer: &mut [u8],
    at: usize,
)
    requires { NotedLists spots.now numbers.now × MarkedFrames file.now spots.now 0 count start × (frames_end file.now count start ≤ length file.now) × (base ≤ 1)
        × (at + length (frames_by numbers.now base 0 file.now count start) ≤ length buffer.old) }
    ensures { buffer.new ≡ put (frames_by numbers.now base 0 file.now count start) at buffer.old }
{
    let mut from = start;
    let mut left = count;
    let mut place = at;
    let mut used: usize = 0;
    while 0 < left {
        let pieces = put_frame(file, from, base, spots, numbers, used, buffer, place);
        place = pieces.next;
        used = pieces.used;
        from += COUNT_SIZE + read_u16(file, from) as usize * RECORD_SIZE;
        left -= 1;
    }
}
