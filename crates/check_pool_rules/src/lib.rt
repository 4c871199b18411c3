// The rules 10 and 11 for one pool.
#![tactic(auto)]

ghost use Rattle.std.specs.Prelude.{◌≡◌, ◌+◌, ◌^◌, ◌<◌};
ghost use Rattle.base_format.specs.Pool.{bank_limit, kind_wrong, pool_wrong};
ghost use Rattle.base_format.specs.Rule.{answer_of};
ghost use Rattle.check_pool_rules.specs.Rules.{pool_rules};

use base_format::{PCM_SIZE, Pool, Refusal, Rule};
use base_refusal::refuse;
use bytes_read::{byte_at, read_u16, read_u32};

// How long a payload of kind 3 may be.
#[tactic(auto, unfolding(base_format::specs::Pool::bank_limit))]
fn bank_limit(version: u8) -> u32
    ensures { result ≡ bank_limit version }
{
    match version {
        4 => 0x2000000,
        3 => 0x400000,
        _ => 0,
    }
}

// Whether a kind does not exist or may not have a size.
#[tactic(auto, unfolding(base_format::specs::Pool::kind_wrong))]
fn kind_wrong(version: u8, kind: u8, size: u32) -> bool
    ensures { result ≡ kind_wrong version kind size }
{
    match kind {
        1 => size != 256,
        2 => size == 0 || PCM_SIZE < size as usize,
        3 => size == 0 || bank_limit(version) < size,
        _ => true,
    }
}

// Whether the entry of a pool at a place breaks a pool rule; its payload starts at `start`.
#[tactic(auto, unfolding(base_format::specs::Pool::pool_wrong))]
fn pool_wrong(file: &[u8], version: u8, at: usize, id: u32, start: usize, pool: Pool) -> bool
    requires { at + 16 < 2 ^ 64 }
    ensures { result ≡ pool_wrong version file.now at id start pool }
{
    read_u16(file, at) as u32 != id
        || kind_wrong(version, pool.kind, pool.size)
        || byte_at(file, at + 3) != 0
        || read_u32(file, at + 8) != pool.size
        || pool.offset as usize != start
}

// The rules 10 and 11 for the pool whose entry stands at a place.
#[tactic(auto, using(base_format::proofs::Answered::passed_on, base_format::proofs::Answered::refused_first))]
pub fn check_pool(
    file: &[u8],
    version: u8,
    at: usize,
    id: u32,
    start: usize,
    pool: Pool,
) -> Result<(), Refusal>
    requires { (at + 16 < 2 ^ 64) × (start < 2 ^ 63) }
    ensures { answer_of result ≡ pool_rules version file.now at id start pool }
{
    let wrong = pool_wrong(file, version, at, id, start, pool);
    refuse(Rule::PoolEntry, at, wrong)?;
    let end = start + pool.size as usize;
    refuse(Rule::PoolPayload, at, file.len() < end)
}
