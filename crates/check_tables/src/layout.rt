// The tables and the places of the sections: the rules 8 to 12 in a row.
ghost use Rattle.std.specs.Prelude.{◌≡◌};
ghost use Rattle.base_format.specs.Rule.{answer_of};
ghost use Rattle.check_tables.specs.Layout.{layout_from};

use crate::rules::{counts_wrong, directory_wrong, sections_wrong};
use base_format::{Header, Refusal, Rule};
use base_refusal::refuse;
use check_pools::check_pools;

// The rules 8 to 12.
#[tactic(auto, using(base_format::proofs::Answered::passed_on, base_format::proofs::Answered::refused_first, base_format::proofs::Answered::refused_bind))]
pub fn check_layout(file: &[u8], header: Header) -> Result<(), Refusal>
    ensures { answer_of result ≡ layout_from header file.now }
{
    refuse(Rule::Counts, 0, counts_wrong(header, file.len()))?;
    refuse(Rule::Directory, 0, directory_wrong(header, file.len()))?;
    let end = check_pools(file, header)?;
    refuse(Rule::Sections, 0, sections_wrong(header, end, file.len()))
}
