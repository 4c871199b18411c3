// What an operation's target number stands for.
#![tactic(auto)]

ghost use Rattle.std.specs.Prelude.{◌≡◌};
ghost use Rattle.base_format.specs.Card.{cards_of};
ghost use Rattle.base_format.specs.Target.{slot_target, target_of};

use base_format::{CardTable, Target};

// The target that a slot is: the first card of the table with that slot.
#[tactic(auto, using(crate::proofs::Slots::slot_here, crate::proofs::Slots::slot_behind, crate::proofs::Slots::slot_none))]
fn find_slot(table: CardTable, slot: u8) -> Target
    ensures { result ≡ slot_target (cards_of table) slot }
{
    for card in &table.cards[..table.count.min(8)] {
        if card.slot == slot {
            return Target::Slot {
                start: card.bulk_start,
                length: card.bulk_length,
            };
        }
    }
    Target::Missing
}

// What a target number stands for.
#[tactic(auto, unfolding(base_format::specs::Target::target_of))]
pub fn find_target(number: u8, version: u8, table: CardTable) -> Target
    ensures { result ≡ target_of version (cards_of table) number }
{
    match (version, number) {
        (_, 0 | 1) => Target::Core,
        (_, 2) => Target::Pcm,
        (3, 3) => Target::Bank,
        (4, 3..=10) => find_slot(table, Target::slot(number)),
        (4, 11) => Target::Si22,
        _ => Target::Missing,
    }
}
