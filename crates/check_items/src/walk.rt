// So many records or operations in a row.
ghost use Rattle.std.specs.Prelude.{◌≡◌};
ghost use Rattle.base_format.specs.Operation.{setting_of};
ghost use Rattle.base_format.specs.Rule.{answer_of};
ghost use Rattle.check_items.specs.Walk.{walked};

use crate::item::read_item;
use base_format::{CardTable, Header, Refusal};
use check_item_allowed::target_number;

// So many items from a place, up to a limit: the place behind the last one, and whether one has target 11.
#[tactic(auto, using(base_format::proofs::Answered::passed_on, crate::proofs::Steps::walk_refused))]
pub fn check_operations(
    file: &[u8],
    header: Header,
    cards: CardTable,
    limit: usize,
    count: u32,
    start: usize,
) -> Result<(usize, bool), Refusal>
    ensures { answer_of result ≡ walked (setting_of file.now header cards) file.now limit count start }
{
    let mut at = start;
    let mut si22 = false;
    for _i in 0..count {
        let item = read_item(file, header, cards, limit, at)?;
        si22 |= target_number(item.operation) == 11;
        at = item.next;
    }
    Ok((at, si22))
}
