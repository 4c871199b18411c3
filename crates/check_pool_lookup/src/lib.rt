// Looks up a pool of an accepted file.
#![tactic(auto)]

ghost use Rattle.std.specs.Prelude.{◌≡◌};
ghost use Rattle.base_format.specs.Lookup.{pool_kind, pool_payload};
ghost use Rattle.base_format.specs.Rule.{answer_of};
ghost use Rattle.check_pool_lookup.specs.Found.{pool_found};

use base_format::{Pool, Refusal};
use check_file::check_file;
use check_pool_entry::{entry_of, part};

// The entry of a pool of an accepted file, all 0 for an unknown pool; or the refusal of the file.
pub fn find_pool(file: &[u8], id: u16) -> Result<Pool, Refusal>
    ensures { answer_of result ≡ pool_found file.now id }
{
    let checked = check_file(file)?;
    Ok(entry_of(file, checked.header, id))
}

// The kind of a pool, 0 for an unknown pool; or the refusal of the file.
#[tactic(auto, using(base_format::proofs::Answered::passed_on, base_format::proofs::Answered::refused_mapped, crate::proofs::Pools::kind_found))]
pub fn pool_kind(file: &[u8], id: u16) -> Result<u8, Refusal>
    ensures { answer_of result ≡ pool_kind file.now id }
{
    let pool = find_pool(file, id)?;
    Ok(pool.kind)
}

// The part of the file that is a pool's payload; empty for an unknown pool and for a refused file.
#[tactic(auto, using(crate::proofs::Pools::payload_found))]
pub fn pool_payload(file: &[u8], id: u16) -> &[u8]
    ensures { result.now ≡ pool_payload file.now id }
{
    match find_pool(file, id) {
        Ok(pool) => part(file, pool.offset as usize, pool.size as usize),
        Err(_) => &file[0..0],
    }
}
