// The ranges of addresses that a WRITE or a FILL may go to, in two arrays by opcode and target, so that one test without a branch on
// the opcode allows an operation. A target whose card breaks rule 7 has the range of a missing one.
#![tactic(auto)]

ghost use Rattle.std.specs.Prelude.{◌≡◌, cond, [], ◌≤◌, ◌<◌, min, eqb, length, replicate};
ghost use Rattle.base_format.specs.Card.{cards_of};
ghost use Rattle.base_format.specs.Target.{target_of};
ghost use Rattle.play_fast_ranges.specs.Ranges.{write_top, card_target, starts_by, ends_by, starts_of, ends_of, starts_with, ends_with, starts_card, ends_card};

use base_format::{CardRequirement, CardTable, Target};
use check_card::one_card_wrong;
use check_fast_limits::bulk_end;

// An entry for each opcode, 0 or 1, and each target, 0 to 15.
pub const RANGES: usize = 32;

// One more than the greatest sum of the address and the count of a WRITE, which is 1; 0 for a missing target.
#[tactic(auto, unfolding(crate::specs::Ranges::write_top))]
fn write_top(target: Target) -> u64
    ensures { result ≡ write_top target }
{
    if target.missing() {
        return 0;
    }
    target.write_limit() as u64 + 2
}

// Stores the ranges of a target. The start of a WRITE's is 0 for every target.
fn put_target(starts: &mut [u32; RANGES], ends: &mut [u64; RANGES], number: usize, target: Target)
    requires { (number < 16) × (length starts.old ≡ 32) × (length ends.old ≡ 32) }
    ensures { (starts.new ≡ starts_with starts.old number target) × (ends.new ≡ ends_with ends.old number target) }
{
    let fill = number + 16;
    starts[fill] = target.bulk_start();
    ends[number] = write_top(target);
    ends[fill] = bulk_end(target);
}

// The targets that need no card.
fn put_plain(version: u8, starts: &mut [u32; RANGES], ends: &mut [u64; RANGES])
    requires { (starts.old ≡ replicate 32 0) × (ends.old ≡ replicate 32 0) }
    ensures { (starts.new ≡ starts_by (target_of version [])) × (ends.new ≡ ends_by (target_of version [])) }
{
    put_target(starts, ends, 0, Target::Core);
    put_target(starts, ends, 1, Target::Core);
    put_target(starts, ends, 2, Target::Pcm);
    if version == 3 {
        put_target(starts, ends, 3, Target::Bank);
        return;
    }
    if version == 4 {
        put_target(starts, ends, 11, Target::Si22);
    }
}

// The target of a card's slot: missing where the card breaks a rule that speaks of one card.
#[tactic(auto, unfolding(crate::specs::Ranges::card_target))]
fn card_target(card: CardRequirement) -> Target
    ensures { result ≡ card_target card }
{
    if one_card_wrong(card) {
        return Target::Missing;
    }
    Target::Slot {
        start: card.bulk_start,
        length: card.bulk_length,
    }
}

// Stores the ranges of a card's slot. A slot past the eight is no target.
fn put_card_ranges(starts: &mut [u32; RANGES], ends: &mut [u64; RANGES], card: CardRequirement)
    requires { (length starts.old ≡ 32) × (length ends.old ≡ 32) }
    ensures { (starts.new ≡ starts_card starts.old card) × (ends.new ≡ ends_card ends.old card) }
{
    let slot = card.slot;
    if 7 < slot {
        return;
    }
    put_target(starts, ends, slot as usize + 3, card_target(card));
}

// How many cards count in a version: only version 4 has cards.
fn cards_in(version: u8, count: usize) -> usize
    ensures { (result ≡ cond (eqb version 4) (min count 8) 0) × (result ≤ 8) }
{
    if version != 4 {
        return 0;
    }
    count.min(8)
}

// Fills the arrays, whose entries are 0, for a version with its cards. The cards are taken from the last to the first, so that of two
// with the same slot the first one's range stays.
pub fn address_ranges(
    version: u8,
    cards: CardTable,
    starts: &mut [u32; RANGES],
    ends: &mut [u64; RANGES],
)
    requires { (starts.old ≡ replicate 32 0) × (ends.old ≡ replicate 32 0) }
    ensures { (starts.new ≡ starts_of version (cards_of cards)) × (ends.new ≡ ends_of version (cards_of cards)) }
{
    put_plain(version, starts, ends);
    let mut i = cards_in(version, cards.count);
    while 0 < i {
        i -= 1;
        let card = cards.cards[i];
        put_card_ranges(starts, ends, card);
    }
}
