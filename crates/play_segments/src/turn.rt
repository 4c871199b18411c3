// One segment of a call's records, and the place behind it. A turn of an operation is made at one place: the count and the place behind
// the segment are chosen first.
ghost use Rattle.std.specs.Prelude.{◌≡◌};
ghost use Rattle.play_segments.specs.SpanTurn.{span_ended, from_behind, place_behind, span_turn};
ghost use Rattle.play_segments.specs.Turn.{halted, closing_turn, turn};

use crate::closing::closing_segment;
use crate::place::{Place, Turn, one_value, onward, stopped};
use base_format::StreamPlayer;
use play_item_span::{Span, read_span};
use play_store_segment::Segment;

// There is no next segment.
fn halted(place: Place) -> Turn
    ensures { result ≡ halted place }
{
    Turn {
        at: place.total.saturating_sub(place.room),
        segment: one_value(0, 0, 0, 0),
        place: stopped(place),
    }
}

// The next closing write.
#[tactic(auto, unfolding(crate::specs::Turn::closing_turn))]
fn closing_turn(place: Place) -> Turn
    ensures { result ≡ closing_turn place }
{
    let next = if place.room <= 1 {
        stopped(place)
    } else {
        onward(place, place.cursor, 1)
    };
    Turn {
        at: place.total.saturating_sub(place.room),
        segment: closing_segment(place.left),
        place: next,
    }
}

// Whether more writes are done than there are, or the next one's address would wrap.
#[tactic(auto, unfolding(crate::specs::SpanTurn::span_ended))]
fn span_ended(span: Span, done: u32) -> bool
    ensures { result ≡ span_ended span done }
{
    span.count < done || 0xFFFFFFFF < span.address as u64 + done as u64
}

// Where the copied bytes begin behind so many.
fn from_behind(span: Span, done: u32) -> usize
    ensures { result ≡ from_behind span done }
{
    if span.copied {
        return span.offset as usize + (span.source as usize + done as usize);
    }
    0
}

// The place behind so many writes; with no room behind them nothing is left.
fn place_behind(place: Place, next: usize, rest: usize) -> Place
    ensures { result ≡ place_behind place next rest }
{
    if place.room <= rest {
        return stopped(place);
    }
    onward(place, next, rest)
}

// The writes of an item that are left, as many as there is room for.
#[tactic(auto, unfolding(crate::specs::SpanTurn::span_turn), using(crate::proofs::SpanTurns::goes_on_lem))]
fn span_turn(place: Place, span: Span) -> Turn
    ensures { result ≡ span_turn place span }
{
    let done = place.done;
    if span_ended(span, done) {
        return halted(place);
    }
    let rest = (span.count - done) as usize;
    let segment = Segment {
        target: span.target,
        address: span.address + done,
        count: place.room.min(rest),
        copied: span.copied,
        value: span.value,
        from: from_behind(span, done),
    };
    Turn {
        at: place.total.saturating_sub(place.room),
        segment,
        place: place_behind(place, span.next, rest),
    }
}

// The next segment. Where no item is decoded there is none.
#[tactic(auto, unfolding(crate::specs::Turn::turn), using(crate::proofs::SpanTurns::some_turns, crate::proofs::SpanTurns::none_turns))]
pub fn next_segment(file: &[u8], state: StreamPlayer, place: Place) -> Turn
    ensures { result ≡ turn file.now state place }
{
    if place.closing {
        return closing_turn(place);
    }
    let span = read_span(
        file,
        state.header.version,
        state.header.directory_offset,
        place.cursor,
    );
    match span {
        Some(span) => span_turn(place, span),
        None => halted(place),
    }
}
