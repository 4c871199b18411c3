// Where the records of a call begin.
#![tactic(auto)]

ghost use Rattle.std.specs.Prelude.{◌≡◌, ◌<◌};
ghost use Rattle.base_format.specs.State.{part_of};
ghost use Rattle.play_segments_first.specs.First.{nowhere, closing_from, frame_place, frame_at, opening_place, between_place, part_place, first_place};

use base_format::{COUNT_SIZE, Header, NextPart, Part, StreamPlayer};
use base_next_part::{closing_count, next_part, operations_left};
use base_position::opening_from;
use bytes_read::{passes, read_u16};
use play_segments::Place;

// No record is taken.
fn nowhere(total: usize) -> Place
    ensures { result ≡ nowhere total }
{
    Place {
        closing: false,
        left: 0,
        opening: 0,
        after: 0,
        cursor: 0,
        done: 0,
        total,
        room: total,
    }
}

// The closing writes behind so many.
fn closing_from(state: StreamPlayer, done: u32, total: usize) -> Place
    ensures { result ≡ closing_from state done total }
{
    Place {
        closing: true,
        left: closing_count(state.uses_si22).saturating_sub(done) as usize,
        ..nowhere(total)
    }
}

// So many operations of a frame from a cursor on.
fn frame_place(left: usize, cursor: usize, done: u32, total: usize) -> Place
    ensures { result ≡ frame_place left cursor done total }
{
    Place {
        left,
        after: cursor,
        cursor,
        done,
        ..nowhere(total)
    }
}

// The frame whose count stands at a cursor; none if it passes the file's end.
#[tactic(auto, unfolding(crate::specs::First::frame_at))]
fn frame_at(file: &[u8], cursor: usize, total: usize) -> Place
    ensures { (result ≡ frame_at file.now cursor total) × (result.left < 65536) }
{
    if passes(file.len(), cursor, COUNT_SIZE) {
        return nowhere(total);
    }
    let count = read_u16(file, cursor);
    frame_place(count as usize, cursor + COUNT_SIZE, 0, total)
}

// So many operations of the opening from a cursor on, and then the first frame.
#[tactic(auto, unfolding(crate::specs::First::opening_place))]
fn opening_place(
    file: &[u8],
    header: Header,
    left: u32,
    cursor: usize,
    done: u32,
    total: usize,
) -> Place
    ensures { result ≡ opening_place file.now header left cursor done total }
{
    let frame = frame_at(file, header.frame_start, total);
    if left == 0 {
        return frame;
    }
    Place {
        left: left as usize + frame.left,
        opening: left as usize,
        after: frame.cursor,
        cursor,
        done,
        ..nowhere(total)
    }
}

// Between vsyncs the next one begins.
#[tactic(auto, unfolding(crate::specs::First::between_place))]
fn between_place(file: &[u8], state: StreamPlayer, total: usize) -> Place
    ensures { result ≡ between_place file.now state total }
{
    match next_part(state.header, state.progress) {
        NextPart::Opening => {
            let at = opening_from(state.header);
            opening_place(file, state.header, at.operation_count, at.cursor, 0, total)
        }
        NextPart::Frame { place, frame: _ } => frame_at(file, place, total),
        NextPart::Closing => closing_from(state, 0, total),
    }
}

// The part that is under way goes on.
fn part_place(file: &[u8], state: StreamPlayer, total: usize) -> Place
    ensures { result ≡ part_place file.now state total (part_of state.progress.part) }
{
    let progress = state.progress;
    let left = operations_left(progress.operation_index, progress.operation_count);
    let done = progress.write_index;
    match Part::from(progress.part) {
        Part::Between => between_place(file, state, total),
        Part::Opening => opening_place(file, state.header, left, progress.cursor, done, total),
        Part::Frame => frame_place(left as usize, progress.cursor, done, total),
        Part::Closing => closing_from(state, done, total),
    }
}

// The place before the first record of a call that takes so many and has a run of `total`.
#[tactic(auto, unfolding(crate::specs::First::first_place))]
pub fn first_place(file: &[u8], state: StreamPlayer, count: usize, total: usize) -> Place
    ensures { result ≡ first_place file.now state count total }
{
    if count == 0 {
        return nowhere(total);
    }
    part_place(file, state, total)
}
