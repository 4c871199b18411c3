// What a call takes of the closing writes.
ghost use Rattle.std.specs.Prelude.{◌≡◌};
ghost use Rattle.play_plan_taken.specs.Taken.{closing_taken};

use crate::taken::Taken;
use base_format::Progress;
use base_next_part::closing_count;
use base_state::closing_at;

// None is refusal 25: more closing writes are made than there are.
pub fn plan_closing(si22: bool, room: usize, progress: Progress) -> Option<Taken>
    ensures { result ≡ closing_taken si22 room progress }
{
    let made = progress.write_index;
    let rest = closing_count(si22).checked_sub(made)? as usize;
    let count = room.min(rest);
    let complete = rest <= room;
    let after = closing_at(progress, made + count as u32, complete);
    Some(Taken {
        count,
        complete,
        progress: after,
    })
}
