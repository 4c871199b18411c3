// What a vsync call goes on with, decided once from a few numbers of the state: the part that is under way, or the one that the call
// begins.
#![tactic(auto)]

ghost use Rattle.std.specs.Prelude.{◌≡◌, ◌+◌, ◌^◌, ◌<◌};
ghost use Rattle.play_fast_part.specs.PlayingPart.{under_way, frame_begun_at, part_between, playing_part_of};

use base_format::{COUNT_SIZE, Header, NextPart, Part, Position, Progress};
use base_next_part::{next_part, opening_limit};
use base_position::{frame_from, opening_from, position_of};
use bytes_read::{passes, read_u16};
use play_belongs::foreign;

// The next operation stands at the position's cursor, and no operation goes past the limit.
#[derive(Clone, Copy)]
pub struct PlayingPart {
    pub limit: usize,
    pub at: Position,
}

// The opening or a frame goes on. A frame is under way only behind the opening.
#[tactic(auto, unfolding(crate::specs::PlayingPart::under_way))]
fn under_way(file: &[u8], header: Header, progress: Progress) -> Option<PlayingPart>
    ensures { result ≡ under_way file.now header progress }
{
    let at = position_of(progress);
    if progress.part == Part::OPENING {
        let limit = opening_limit(file, header);
        return Some(PlayingPart { limit, at });
    }
    if progress.part != Part::FRAME {
        return None;
    }
    if !progress.initialized {
        return None;
    }
    Some(PlayingPart {
        limit: file.len(),
        at,
    })
}

// A frame that begins, counted from 0, whose count stands at a place.
#[tactic(auto, unfolding(crate::specs::PlayingPart::frame_begun_at))]
fn frame_begun_at(file: &[u8], place: usize, frame: u32) -> Option<PlayingPart>
    requires { frame + 1 < 2 ^ 32 }
    ensures { result ≡ frame_begun_at file.now place frame }
{
    if passes(file.len(), place, COUNT_SIZE) {
        return None;
    }
    let total = read_u16(file, place) as u32;
    Some(PlayingPart {
        limit: file.len(),
        at: frame_from(place + COUNT_SIZE, total, frame + 1),
    })
}

// Between vsyncs the next one begins. The closing writes are not taken here.
#[tactic(auto, unfolding(crate::specs::PlayingPart::part_between))]
fn part_between(file: &[u8], header: Header, progress: Progress) -> Option<PlayingPart>
    ensures { result ≡ part_between file.now header progress }
{
    match next_part(header, progress) {
        NextPart::Opening => {
            let limit = opening_limit(file, header);
            let at = opening_from(header);
            Some(PlayingPart { limit, at })
        }
        NextPart::Frame { place, frame } => frame_begun_at(file, place, frame),
        NextPart::Closing => None,
    }
}

// What the call of a state with so many cards goes on with: nothing where the player is finished, the state belongs to another file,
// the closing writes come, or a frame's count passes the file's end.
#[tactic(auto, unfolding(crate::specs::PlayingPart::playing_part_of))]
pub fn playing_part(
    file: &[u8],
    header: Header,
    cards: usize,
    progress: Progress,
) -> Option<PlayingPart>
    ensures { result ≡ playing_part_of file.now header cards progress }
{
    if progress.finished {
        return None;
    }
    if foreign(file.len(), header, cards, progress) {
        return None;
    }
    if progress.part == Part::BETWEEN {
        return part_between(file, header, progress);
    }
    under_way(file, header, progress)
}
