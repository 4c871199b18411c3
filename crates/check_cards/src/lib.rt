// Reads the cards of version 4, with the sheet's rule 7.
#![tactic(auto)]

ghost use Rattle.std.specs.Prelude.{◌≡◌};
ghost use Rattle.base_format.specs.Card.{cards_from};
ghost use Rattle.base_format.specs.Checked.{mapped};
ghost use Rattle.base_format.specs.Rule.{answer_of};
ghost use Rattle.base_format.specs.State.{table_of};

use base_format::{CARD_SIZE, CARDS_HEADER_SIZE, CardTable, Refusal, Rule};
use base_refusal::refuse;
use base_state::no_card;
pub use check_card::one_card_wrong;
use check_card::{card_wrong, read_card};

// So many cards of a file of version 4.
pub fn parse_v4_cards(file: &[u8], count: u8) -> Result<CardTable, Refusal>
    ensures { answer_of result ≡ mapped table_of (cards_from file.now count 48 0) }
{
    let mut cards = [no_card(); 8];
    let mut least = 0;
    let count = count as usize;
    for i in 0..count {
        let at = CARDS_HEADER_SIZE + i * CARD_SIZE;
        refuse(Rule::CardEntry, at, file.len() < at + CARD_SIZE)?;
        let card = read_card(file, at);
        refuse(Rule::CardEntry, at, card_wrong(file, at, least, card))?;
        cards[i] = card;
        least = card.slot + 1;
    }
    Ok(CardTable { cards, count })
}
