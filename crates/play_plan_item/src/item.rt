// One operation that writes are taken from.
ghost use Rattle.std.specs.Prelude.{◌≡◌};
ghost use Rattle.play_plan_item.specs.Used.{or_25, item_used_by};

use crate::rules::use_wrong;
use base_format::{CardTable, Header, Item};
use check_items::read_item;

// The operation at a place, with the limit that rule 14 names; none is refusal 25.
#[tactic(auto, using(base_format::proofs::As25::as25_bind, base_format::proofs::As25::as25_then))]
pub fn item_used(
    file: &[u8],
    header: Header,
    cards: CardTable,
    limit: usize,
    at: usize,
) -> Option<Item>
    ensures { or_25 result ≡ item_used_by header cards file.now limit at }
{
    let item = read_item(file, header, cards, limit, at).ok()?;
    if use_wrong(file, header, cards, item.operation) {
        return None;
    }
    Some(item)
}
