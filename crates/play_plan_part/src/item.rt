// One operation of which writes are to be taken.
ghost use Rattle.std.specs.Prelude.{◌≡◌, ◌+◌, ◌^◌, ◌<◌, IfSome};
ghost use Rattle.play_plan_item.specs.Used.{or_25};
ghost use Rattle.play_plan_part.specs.Told.{item_start};

use crate::waves::{count_of, waves_now};
use base_format::{StreamPlayer, WaveSource};
use play_plan_item::item_used;

// How many of its writes are still to be made, the place behind it, and the wave sources with its first write made.
#[derive(Clone, Copy)]
pub struct ItemStart {
    pub rest: u32,
    pub next: usize,
    pub waves: [WaveSource; 16],
}

// The operation at the cursor, of which so many writes are made; none is refusal 25.
pub(crate) fn start_item(
    file: &[u8],
    state: StreamPlayer,
    limit: usize,
    cursor: usize,
    writes: u32,
    waves: [WaveSource; 16],
) -> Option<ItemStart>
    ensures { (or_25 result ≡ item_start state file.now limit cursor writes waves) × IfSome result (λ start. writes + start.rest < 2 ^ 32) }
{
    let header = state.header;
    let item = item_used(file, header, state.cards, limit, cursor)?;
    let rest = count_of(item.operation).checked_sub(writes)?;
    let waves = waves_now(file, header.directory_offset, item.operation, writes, waves);
    Some(ItemStart {
        rest,
        next: item.next,
        waves,
    })
}
