// The opening and the frames of a file: the rules 13 to 20.
ghost use Rattle.std.specs.Prelude.{◌≡◌};
ghost use Rattle.base_format.specs.Operation.{setting_of};
ghost use Rattle.base_format.specs.Rule.{answer_of};
ghost use Rattle.check_body.specs.Walk.{body_from};

use crate::opening::check_opening;
use base_format::{CardTable, Header, Refusal, Rule};
use base_refusal::refuse;
use check_fast_limits::limit_table;
use check_frames::check_frames;

// The opening, which ends where the frames start, and the frames, the last of which ends at the file's end: whether an operation has
// target 11.
#[tactic(auto, using(base_format::proofs::Answered::passed_on, base_format::proofs::Answered::refused_first, base_format::proofs::Answered::refused_bind))]
pub fn check_body(file: &[u8], header: Header, cards: CardTable) -> Result<bool, Refusal>
    ensures { answer_of result ≡ body_from (setting_of file.now header cards) header file.now }
{
    let table = limit_table(header.version, cards);
    let (start, si22) = check_opening(file, header, cards, &table)?;
    refuse(Rule::Ending, start, start != header.frame_start)?;
    let (end, si22) = check_frames(file, header, cards, &table, si22)?;
    refuse(Rule::Ending, end, end != file.len())?;
    Ok(si22)
}
