// The verdict on a file with one of its cards.
ghost use Rattle.std.specs.Prelude.{◌≡◌, get_or};
ghost use Rattle.base_format.specs.Rule.{answer_of};
ghost use Rattle.base_format.specs.State.{no_card};
ghost use Rattle.sgub_answers.specs.Surface.{card_on};

use base_format::{CardRequirement, CardTable, Refusal};
use base_state::no_card;
use check_file::Recorded;

// A card; all 0 from the card count on, and where the file is refused.
#[repr(C)]
#[derive(Clone, Copy)]
pub struct SgubCard {
    pub number: u32,
    pub place: u64,
    pub card: CardRequirement,
}

// The card of a table by its index; all 0 past the eight that it has.
fn card_at(table: CardTable, index: usize) -> CardRequirement
    ensures { result ≡ get_or table.cards index no_card }
{
    match table.cards.get(index) {
        Some(card) => *card,
        None => no_card(),
    }
}

pub fn card_of(checked: Result<Recorded, Refusal>, index: usize) -> SgubCard
    ensures { result ≡ card_on (answer_of checked) index }
{
    match checked {
        Ok(found) => SgubCard {
            number: 0,
            place: 0,
            card: card_at(found.cards, index),
        },
        Err(refusal) => SgubCard {
            number: u32::from(refusal.rule),
            place: refusal.place as u64,
            card: no_card(),
        },
    }
}
