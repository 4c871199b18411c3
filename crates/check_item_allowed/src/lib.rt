// The rules 15 to 19 for an operation whose target is found: the operation with the place behind it, or a refusal.
#![tactic(auto)]

ghost use Rattle.std.specs.Prelude.{◌≡◌};
ghost use Rattle.base_format.specs.Pool.{pool_at};
ghost use Rattle.base_format.specs.Rule.{answer_of};
ghost use Rattle.base_format.specs.Writes.{target_number};
ghost use Rattle.check_item_allowed.specs.Rules.{allowed_at, allowed_item};

use base_format::{Item, Operation, Refusal, Target};
use check_copy::check_copy;
use check_item_rules::{check_fill, check_write};

// The number of an operation's target.
pub fn target_number(operation: Operation) -> u8
    ensures { result ≡ target_number operation }
{
    match operation {
        Operation::Write { target, .. }
        | Operation::Fill { target, .. }
        | Operation::Copy { target, .. } => target,
    }
}

// The rules 15 to 19 for an operation whose target is found. What is passed is small, so that the loop over operations copies no
// table.
fn check_operation(
    file: &[u8],
    version: u8,
    pools: u32,
    directory: u32,
    at: usize,
    target: Target,
    operation: Operation,
) -> Result<(), Refusal>
    ensures { answer_of result ≡ allowed_at version pools (pool_at file.now directory) at target operation }
{
    match operation {
        Operation::Write { address, .. } => check_write(at, target, address),
        Operation::Fill {
            address,
            length,
            ..
        } => check_fill(at, target, address, length),
        Operation::Copy {
            address,
            pool,
            source,
            length,
            ..
        } => check_copy(
            file, version, pools, directory, at, target, address, pool, source, length,
        ),
    }
}

// The operation with the place behind it, if the rules 15 to 19 allow it.
#[tactic(auto, using(base_format::proofs::Answered::passed_on, base_format::proofs::Answered::refused_first))]
pub fn allow(
    file: &[u8],
    version: u8,
    pools: u32,
    directory: u32,
    at: usize,
    target: Target,
    operation: Operation,
    next: usize,
) -> Result<Item, Refusal>
    ensures { answer_of result ≡ allowed_item version pools (pool_at file.now directory) at target operation next }
{
    check_operation(file, version, pools, directory, at, target, operation)?;
    Ok(Item { operation, next })
}
