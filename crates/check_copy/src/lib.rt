// The rules 15 to 19 for a COPY whose numbers are read and whose target is found.
#![tactic(auto)]

ghost use Rattle.std.specs.Prelude.{◌≡◌};
ghost use Rattle.base_format.specs.Pool.{pool_at};
ghost use Rattle.base_format.specs.Rule.{answer_of};
ghost use Rattle.base_format.specs.Operation.{copy_rules};

use base_format::{Refusal, Rule, Target};
use base_refusal::refuse;
use check_copy_pool::copy_wrong;
use check_pool_entry::read_pool;

// The pool is read only where its number is one of the file's.
#[tactic(auto, unfolding(base_format::specs::Operation::copy_rules), using(base_format::proofs::Answered::passed_on, base_format::proofs::Answered::refused_first))]
pub fn check_copy(
    file: &[u8],
    version: u8,
    pools: u32,
    directory: u32,
    at: usize,
    target: Target,
    address: u32,
    id: u16,
    source: u32,
    length: u32,
) -> Result<(), Refusal>
    ensures { answer_of result ≡ copy_rules at version pools target address id (pool_at file.now directory id) source length }
{
    let number = u32::from(id);
    let outside = target.outside(address, length);
    refuse(Rule::NoTarget, at, target.missing())?;
    refuse(Rule::BulkRange, at, version == 4 && outside)?;
    refuse(Rule::NoPool, at, pools <= number)?;
    let pool = read_pool(file, directory, number);
    refuse(
        Rule::CopyRange,
        at,
        outside || copy_wrong(target, pool, address, source, length),
    )
}
