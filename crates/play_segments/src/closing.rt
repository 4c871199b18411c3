// The closing writes, each a segment.
ghost use Rattle.std.specs.Prelude.{◌≡◌, ◌-◌};
ghost use Rattle.play_segments.specs.Closing.{closing_segment};

use crate::place::one_value;
use play_store_segment::Segment;

// The next closing write, where so many are left.
#[tactic(auto, unfolding(crate::specs::Closing::closing_segment))]
pub fn closing_segment(left: usize) -> Segment
    ensures { result ≡ closing_segment (33 - left) }
{
    let index = 33_usize.saturating_sub(left);
    if index == 0 {
        return one_value(11, 0x0C, 1, 0);
    }
    let i = index - 1;
    let core = (i / 16) as u8;
    let channel = ((i % 16) / 2) as u32;
    if i % 2 == 0 {
        return one_value(core, 0x800 + 32 * channel + 3, 1, 0);
    }
    one_value(core, 0x800 + 32 * channel + 0x19, 1, 0)
}
