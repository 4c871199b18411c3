// What rule 19 refuses of a COPY from its pool.
#![tactic(auto)]

ghost use Rattle.std.specs.Prelude.{◌≡◌};
ghost use Rattle.base_format.specs.Operation.{copy_wrong};

use base_format::{Pool, Target};

// Whether the source passes the pool's end, the pool is of another kind than the target's, or waves are split.
#[tactic(auto, unfolding(base_format::specs::Operation::copy_wrong))]
pub fn copy_wrong(target: Target, pool: Pool, address: u32, source: u32, length: u32) -> bool
    ensures { result ≡ copy_wrong target pool address source length }
{
    let end = u64::from(source) + u64::from(length);
    let waves = address % 256 == 0 && source % 256 == 0 && length % 256 == 0;
    u64::from(pool.size) < end || pool.kind != target.kind() || pool.kind == 1 && !waves
}
