// What a vsync plays next, and how far each part goes: the one decision of the plan, the segments and the quick paths.
#![tactic(auto)]

ghost use Rattle.std.specs.Prelude.{◌≡◌, ◌+◌, ◌-◌, ◌^◌, ◌<◌};
ghost use Rattle.base_format.specs.Next.{next_part, frames_before};
ghost use Rattle.base_format.specs.Writes.{closing_count};
ghost use Rattle.base_format.specs.Stream.{opening_limit};

use base_format::{Header, NextPart, Progress};

// Between vsyncs: the opening, the next frame of the pass, frame 1 again, or the closing writes. One more frame than are begun before
// it has a number.
#[tactic(auto, unfolding(base_format::specs::Next::next_part))]
pub fn next_part(header: Header, progress: Progress) -> NextPart
    ensures { (result ≡ next_part header progress) × (frames_before result + 1 < 2 ^ 32) }
{
    if !progress.initialized {
        return NextPart::Opening;
    }
    if progress.frame_index < header.frame_count {
        return NextPart::Frame {
            place: progress.cursor,
            frame: progress.frame_index,
        };
    }
    if header.repeat {
        return NextPart::Frame {
            place: header.frame_start,
            frame: 0,
        };
    }
    NextPart::Closing
}

// The limit of rule 14 for the opening.
#[tactic(auto, unfolding(base_format::specs::Stream::opening_limit))]
pub fn opening_limit(file: &[u8], header: Header) -> usize
    ensures { result ≡ opening_limit header file.now }
{
    if header.version == 1 {
        return file.len();
    }
    header.frame_start
}

// How many closing writes there are: one more with target 11.
pub fn closing_count(uses_si22: bool) -> u32
    ensures { result ≡ closing_count uses_si22 }
{
    if uses_si22 {
        return 33;
    }
    32
}

// How many of a part's operations are not done.
pub fn operations_left(done: u32, count: u32) -> u32
    ensures { (result ≡ count - done) × (done + result < 2 ^ 32) }
{
    count.saturating_sub(done)
}
