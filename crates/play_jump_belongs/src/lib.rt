// Whether a jump's state belongs to the lent file (25): what a vsync call tests, how far the closing writes are, and that the state records
// what a start of that file records.
#![tactic(auto)]

ghost use Rattle.std.specs.Prelude.{◌≡◌};
ghost use Rattle.base_format.specs.Jump.{closing_past};
ghost use Rattle.base_format.specs.State.{part_of};
ghost use Rattle.play_jump_belongs.specs.Foreign.{records_differ, foreign_jump};

use base_format::{Part, StreamPlayer};
use base_next_part::closing_count;
use play_belongs::foreign;
use play_jump_recorded::same_cards;

// Whether more closing writes are made than there are.
#[tactic(auto, unfolding(base_format::specs::Jump::closing_past), using(play_laws::proofs::Planned::closing_count_lem))]
fn closing_past(state: StreamPlayer) -> bool
    ensures { result ≡ closing_past state (part_of state.progress.part) }
{
    match Part::from(state.progress.part) {
        Part::Between | Part::Opening | Part::Frame => false,
        Part::Closing => closing_count(state.uses_si22) < state.progress.write_index,
    }
}

// Whether two states record another header, other cards or another use of target 11.
#[tactic(auto, unfolding(base_format::specs::Jump::same_header, crate::specs::Foreign::records_differ))]
fn records_differ(state: StreamPlayer, recorded: StreamPlayer) -> bool
    ensures { result ≡ records_differ state recorded }
{
    state.header != recorded.header
        || !same_cards(state.cards, recorded.cards)
        || state.uses_si22 != recorded.uses_si22
}

// Whether a state belongs to another file than one of a length, of which a start recorded so.
#[tactic(auto, unfolding(crate::specs::Foreign::foreign_jump))]
pub fn jump_foreign(length: usize, state: StreamPlayer, recorded: StreamPlayer) -> bool
    ensures { result ≡ foreign_jump length state recorded }
{
    foreign(length, state.header, state.cards.count, state.progress)
        || closing_past(state)
        || records_differ(state, recorded)
}
