// The rules 7, 9 and 11 for the card and the pool that an operation uses.
ghost use Rattle.std.specs.Prelude.{◌≡◌};
ghost use Rattle.base_format.specs.Card.{cards_of};
ghost use Rattle.base_format.specs.Checked.{refuse};
ghost use Rattle.base_format.specs.Player.{slot_wrong, pool_used, as25};
ghost use Rattle.play_plan_item.specs.Used.{card_of_target, used_by};

use base_format::{CardTable, ENTRY_SIZE, Header, Operation, Target};
use check_cards::one_card_wrong;
use check_pools::read_pool;

// Whether the first card with a slot breaks a rule that speaks of one card.
fn slot_wrong(table: CardTable, slot: u8) -> bool
    ensures { result ≡ slot_wrong (cards_of table) slot }
{
    for card in &table.cards[..table.count.min(8)] {
        if card.slot == slot {
            return one_card_wrong(*card);
        }
    }
    false
}

// Whether the card of a target breaks such a rule.
fn target_card_wrong(version: u8, cards: CardTable, target: u8) -> bool
    ensures { result ≡ card_of_target version (cards_of cards) target }
{
    version == 4 && 3 <= target && target <= 10 && slot_wrong(cards, Target::slot(target))
}

// Whether the directory or the pool passes the file's end.
#[tactic(auto, unfolding(base_format::specs::Player::pool_used), using(base_format::proofs::As25::as25_refuse))]
fn pool_past(file: &[u8], directory: u32, pools: u32, id: u16) -> bool
    ensures { refuse 25 0 result ≡ as25 (pool_used file.now directory pools id) }
{
    if file.len() < directory as usize + pools as usize * ENTRY_SIZE {
        return true;
    }
    let pool = read_pool(file, directory, id as u32);
    file.len() < pool.offset as usize + pool.size as usize
}

// Whether the card or the pool of an operation breaks a rule.
#[tactic(auto, unfolding(base_format::specs::Player::card_used, base_format::specs::Player::pools_used), using(base_format::proofs::As25::as25_refuse, base_format::proofs::As25::as25_then, base_format::proofs::As25::refuse_last))]
pub fn use_wrong(file: &[u8], header: Header, cards: CardTable, operation: Operation) -> bool
    ensures { refuse 25 0 result ≡ as25 (used_by header cards file.now operation) }
{
    match operation {
        Operation::Write { target, .. } | Operation::Fill { target, .. } => {
            target_card_wrong(header.version, cards, target)
        }
        Operation::Copy { target, pool, .. } => {
            target_card_wrong(header.version, cards, target)
                || pool_past(file, header.directory_offset, header.pool_count, pool)
        }
    }
}
