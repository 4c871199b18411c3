// How far the storing of a call's records is, and how it goes on.
ghost use Rattle.std.specs.Prelude.{◌≡◌};
ghost use Rattle.play_segments.specs.Place.{one_value, stopped, next_cursor, onward};

use play_store_segment::Segment;

// `left` closing writes, or operations, are still to do. Of these operations `opening` belong to the opening, and the frame's first one
// stands at `after`; `done` writes of the operation at `cursor` were made. Of `total` records `room` are free. `closing` is a flag and no enum:
// both kinds count down `left` and take from the room in the same way.
#[derive(Clone, Copy)]
pub struct Place {
    pub closing: bool,
    pub left: usize,
    pub opening: usize,
    pub after: usize,
    pub cursor: usize,
    pub done: u32,
    pub total: usize,
    pub room: usize,
}

// A segment, where in the run it goes, and the place behind it.
#[derive(Clone, Copy)]
pub struct Turn {
    pub at: usize,
    pub segment: Segment,
    pub place: Place,
}

// So many records of one value, upward from an address.
pub fn one_value(target: u8, address: u32, count: usize, value: u8) -> Segment
    ensures { result ≡ one_value target address count value }
{
    Segment {
        target,
        address,
        count,
        copied: false,
        value,
        from: 0,
    }
}

// Nothing is left.
pub fn stopped(place: Place) -> Place
    ensures { result ≡ stopped place }
{
    Place { left: 0, ..place }
}

// Where the next operation is: at the cursor, unless it is the frame's first one.
fn next_cursor(place: Place, cursor: usize) -> usize
    ensures { result ≡ next_cursor place cursor }
{
    if place.opening == 1 {
        return place.after;
    }
    cursor
}

// One closing write or operation more is done, and so many records are taken.
pub fn onward(place: Place, cursor: usize, taken: usize) -> Place
    ensures { result ≡ onward place cursor taken }
{
    Place {
        left: place.left.saturating_sub(1),
        opening: place.opening.saturating_sub(1),
        cursor: next_cursor(place, cursor),
        done: 0,
        room: place.room.saturating_sub(taken),
        ..place
    }
}
