// Whether two starts record the same cards.
#![tactic(auto)]

ghost use Rattle.std.specs.Prelude.{◌≡◌};
ghost use Rattle.base_format.specs.Card.{cards_of};
ghost use Rattle.base_format.specs.Jump.{same_cards};

use base_format::CardTable;

// The cards of two tables, which have eight, whatever their count says.
#[tactic(auto, using(crate::proofs::Cards::held_same))]
pub fn same_cards(a: CardTable, b: CardTable) -> bool
    ensures { result ≡ same_cards (cards_of a) (cards_of b) }
{
    a.cards[..a.count.min(8)] == b.cards[..b.count.min(8)]
}
