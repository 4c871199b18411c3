// The whole file: the rules 1 to 20.
ghost use Rattle.std.specs.Prelude.{◌≡◌};
ghost use Rattle.base_format.specs.Rule.{answer_of};
ghost use Rattle.check_file.specs.Answer.{recorded};

use base_format::{CardTable, Header, Refusal};
use check_body::check_body;
use check_cards::parse_v4_cards;
use check_header::read_header;
use check_tables::check_layout;

// What is recorded of an accepted file: its header, its cards, and whether an operation has target 11.
#[derive(Clone, Copy)]
pub struct Recorded {
    pub header: Header,
    pub cards: CardTable,
    pub uses_si22: bool,
}

// What is recorded of a file, or the first of the rules 1 to 20 that it breaks.
#[tactic(auto, using(base_format::proofs::Answered::passed_on, base_format::proofs::Answered::refused_first, base_format::proofs::Answered::refused_bind, crate::proofs::Reading::recorded_walked))]
pub fn check_file(file: &[u8]) -> Result<Recorded, Refusal>
    ensures { answer_of result ≡ recorded file.now }
{
    let header = read_header(file)?;
    let cards = parse_v4_cards(file, header.card_count)?;
    check_layout(file, header)?;
    let uses_si22 = check_body(file, header, cards)?;
    Ok(Recorded {
        header,
        cards,
        uses_si22,
    })
}
