// The call of an empty frame between vsyncs, decided by comparing a few numbers of the state. It takes no write, so that nothing is
// read but the frame's count.
#![tactic(auto)]

ghost use Rattle.std.specs.Prelude.{◌≡◌, ◌+◌, ◌^◌, ◌<◌};
ghost use Rattle.play_fast_empty.specs.Empty.{empty_frame, empty_of};

use base_format::{COUNT_SIZE, Header, NextPart, Part, Position, Progress};
use base_next_part::next_part;
use base_position::between_at;
use bytes_read::{passes, read_u16};
use play_belongs::foreign;

// A vsync is under way, so that the call goes on with it; the call begins one, and is not taken here; or it is taken, and the player
// is then at a position.
#[derive(Clone, Copy)]
pub enum EmptyStep {
    UnderWay,
    NotTaken,
    Taken(Position),
}

// The call of a frame whose count stands at a place: the player is then behind the count.
#[tactic(auto, unfolding(crate::specs::Empty::empty_frame))]
fn empty_frame(file: &[u8], place: usize, frame: u32) -> EmptyStep
    requires { frame + 1 < 2 ^ 32 }
    ensures { result ≡ empty_frame file.now place frame }
{
    if passes(file.len(), place, COUNT_SIZE) {
        return EmptyStep::NotTaken;
    }
    if read_u16(file, place) != 0 {
        return EmptyStep::NotTaken;
    }
    EmptyStep::Taken(between_at(place + COUNT_SIZE, frame + 1))
}

// The call of a state with so many cards.
#[tactic(auto, unfolding(crate::specs::Empty::empty_of))]
pub fn empty_step(file: &[u8], header: Header, cards: usize, progress: Progress) -> EmptyStep
    ensures { result ≡ empty_of file.now header cards progress }
{
    if progress.part != Part::BETWEEN {
        return EmptyStep::UnderWay;
    }
    if progress.finished {
        return EmptyStep::NotTaken;
    }
    if foreign(file.len(), header, cards, progress) {
        return EmptyStep::NotTaken;
    }
    match next_part(header, progress) {
        NextPart::Frame { place, frame } => empty_frame(file, place, frame),
        NextPart::Opening | NextPart::Closing => EmptyStep::NotTaken,
    }
}
