// A vsync call that takes nothing but WRITEs and FILLs, decided from a few numbers of the state and its cards: where it goes on, and
// then its step. What is not taken here is for `play_plan` to decide.
#![tactic(auto)]

ghost use Rattle.std.specs.Prelude.{◌≡◌};
ghost use Rattle.play_fast.specs.Step.{step_of};

use base_format::{CardTable, Header, Progress};
use play_fast_fill_step::fill_step;
use play_fast_part::playing_part;
use play_fast_plain_step::plain_step;
use play_fast_step::Step;

// The call of a state with room for so many records. Plain WRITEs alone need no table of ranges, and are tried first.
#[tactic(auto, unfolding(crate::specs::Step::step_of), using(crate::proofs::Stepped::part_inside))]
pub fn quick_step(
    file: &[u8],
    header: Header,
    cards: CardTable,
    progress: Progress,
    room: usize,
) -> Option<Step>
    ensures { result ≡ step_of file.now header cards progress room }
{
    let playing = playing_part(file, header, cards.count, progress)?;
    let plain = plain_step(file, header.version, playing, room);
    if plain.is_some() {
        return plain;
    }
    fill_step(file, header.version, cards, playing, room)
}
