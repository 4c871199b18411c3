// The rules 15 to 17 for a WRITE and a FILL whose numbers are read and whose target is found.
#![tactic(auto)]

ghost use Rattle.std.specs.Prelude.{◌≡◌};
ghost use Rattle.base_format.specs.Rule.{answer_of};
ghost use Rattle.base_format.specs.Operation.{write_rules, fill_rules};

use base_format::{Refusal, Rule, Target};
use base_refusal::refuse;

#[tactic(auto, unfolding(base_format::specs::Operation::write_rules), using(base_format::proofs::Answered::passed_on, base_format::proofs::Answered::refused_first))]
pub fn check_write(at: usize, target: Target, address: u32) -> Result<(), Refusal>
    ensures { answer_of result ≡ write_rules at target address }
{
    refuse(Rule::NoTarget, at, target.missing())?;
    refuse(Rule::WriteAddress, at, target.write_limit() < address)
}

#[tactic(auto, unfolding(base_format::specs::Operation::fill_rules), using(base_format::proofs::Answered::passed_on, base_format::proofs::Answered::refused_first))]
pub fn check_fill(at: usize, target: Target, address: u32, length: u32) -> Result<(), Refusal>
    ensures { answer_of result ≡ fill_rules at target address length }
{
    refuse(Rule::NoTarget, at, target.missing())?;
    refuse(Rule::BulkRange, at, target.outside(address, length))
}
