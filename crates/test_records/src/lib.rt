// The records of a vsync call as one number, so that few bytes are stored for a call, and its answers as another. The records are those
// that `store_call` stores, made by the same two functions.
#![tactic(auto)]

ghost use Rattle.std.specs.Prelude.{◌≡◌, ◌+◌, ◌*◌};
ghost use Rattle.std.specs.Int.{from_bool};
ghost use Rattle.base_format.specs.Bytes.{byte};
ghost use Rattle.test_records.specs.Mixed.{record_mixed, value_at, segment_mixed, mixed_call};

use base_format::StreamPlayer;
use play_segments::next_segment;
use play_segments_first::first_place;
use play_store_segment::Segment;
use test_vectors::{BASIS, mix};

// The byte of a file so far behind a place; 0 behind the file's end.
fn byte_behind(file: &[u8], from: usize, i: usize) -> u8
    ensures { result ≡ byte file.now (from + i) }
{
    if file.len() < i {
        return 0;
    }
    if from < file.len() - i {
        return file[from + i];
    }
    0
}

// The value of a segment's record.
#[tactic(auto, unfolding(crate::specs::Mixed::value_at))]
fn value_of(file: &[u8], segment: Segment, i: usize) -> u8
    ensures { result ≡ value_at file.now segment i }
{
    if segment.copied {
        byte_behind(file, segment.from, i)
    } else {
        segment.value
    }
}

// The number behind a record: its place in the run, its target, its address and its value.
fn mix_record(sum: u32, place: u32, target: u8, address: u32, value: u8) -> u32
    ensures { result ≡ record_mixed sum place target address value }
{
    let placed = mix(sum, place);
    let aimed = mix(mix(placed, target as u32), address);
    mix(aimed, value as u32)
}

// The number behind the records of a segment. No run of the list is longer than 65,535 records.
#[tactic(auto, unfolding(crate::specs::Mixed::segment_mixed), using(crate::proofs::Steps::records_step, crate::proofs::Steps::records_end))]
fn mix_segment(sum: u32, at: usize, file: &[u8], segment: Segment) -> u32
    ensures { result ≡ segment_mixed file.now segment at sum }
{
    if 0xFFFF < at {
        return 0;
    }
    let mut mixed = sum;
    let mut place = at as u32;
    let mut address = segment.address;
    for i in 0..segment.count {
        let value = value_of(file, segment, i);
        mixed = mix_record(mixed, place, segment.target, address, value);
        place = place.wrapping_add(1);
        address = address.wrapping_add(1);
    }
    mixed
}

// The number of all records of a call that takes so many. Each segment leaves fewer operations or closing writes to do.
#[tactic(auto, unfolding(crate::specs::Mixed::mixed_call), using(crate::proofs::Steps::turns_step, crate::proofs::Steps::turns_end, crate::proofs::Steps::turns_over))]
pub fn mix_call(file: &[u8], state: StreamPlayer, count: usize, room: usize) -> u32
    ensures { result ≡ mixed_call file.now state count room }
{
    let mut mixed = BASIS;
    let mut place = first_place(file, state, count, room);
    for _turn in 0..place.left {
        let over = place.left == 0;
        if over {
            break;
        }
        let turn = next_segment(file, state, place);
        mixed = mix_segment(mixed, turn.at, file, turn.segment);
        place = turn.place;
    }
    mixed
}

// A call's answers as one number: 1 for refused, 2 for a complete vsync, 4 for a finished player.
pub fn flags(refused: bool, complete: bool, finished: bool) -> u8
    ensures { result ≡ from_bool refused + 2 * from_bool complete + 4 * from_bool finished }
{
    refused as u8 + 2 * (complete as u8) + 4 * (finished as u8)
}
