// The card rules (7), for one card.
ghost use Rattle.std.specs.Prelude.{◌≡◌, not, ◌+◌, ◌≤◌, length, drop};
ghost use Rattle.base_format.specs.Bytes.{all_zero};
ghost use Rattle.base_format.specs.Card.{one_card_wrong, card_wrong};
ghost use Rattle.check_card.specs.Padding.{padding_at};

use base_format::CardRequirement;
use bytes_read::byte_at;

// A byte of the name where it stands behind the name's length, else 0.
fn padding(byte: u8, place: usize, id_length: u8) -> u8
    ensures { result ≡ padding_at byte place id_length }
{
    if place < id_length as usize { 0 } else { byte }
}

// Whether a byte of the name behind its length is not 0. All bytes are read, without a branch, so that the compiler takes them at once.
#[tactic(auto, using(crate::proofs::Zeros::padding_step))]
fn padding_wrong(id: [u8; 16], id_length: u8) -> bool
    ensures { result ≡ not (all_zero (drop id_length id)) }
{
    let mut some = 0;
    for (place, byte) in id.iter().enumerate() {
        some |= padding(*byte, place, id_length);
    }
    some != 0
}

// Whether a card breaks a rule that speaks of one card.
#[tactic(auto, unfolding(base_format::specs::Card::one_card_wrong))]
pub fn one_card_wrong(card: CardRequirement) -> bool
    ensures { result ≡ one_card_wrong card }
{
    7 < card.slot
        || card.id_length == 0
        || 16 < card.id_length
        || padding_wrong(card.id, card.id_length)
        || 0x2000000 < card.id_offset as u64 + card.id_length as u64
        || 0x2000000 < card.bulk_start as u64 + card.bulk_length as u64
}

// Whether the card at a place breaks a card rule; its slot is at least `least`.
#[tactic(auto, unfolding(base_format::specs::Card::card_wrong), using(crate::proofs::Zeros::zeros_two))]
pub fn card_wrong(file: &[u8], at: usize, least: u8, card: CardRequirement) -> bool
    requires { at + 32 ≤ length file.now }
    ensures { result ≡ card_wrong file.now at least card }
{
    card.slot < least
        || byte_at(file, at + 2) != 0
        || byte_at(file, at + 3) != 0
        || one_card_wrong(card)
}
