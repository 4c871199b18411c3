// A pool as plain numbers: the kit exports no reference, so its payload is an offset and a size.
ghost use Rattle.std.specs.Prelude.{◌≡◌};
ghost use Rattle.base_format.specs.Rule.{answer_of};
ghost use Rattle.sgub_answers.specs.Surface.{pool_on};

use base_format::{Pool, Refusal};

// A pool: its kind, and the part of the file that is its payload; or the refusal of the file.
#[repr(C)]
#[derive(Clone, Copy, Default)]
pub struct SgubPool {
    pub number: u32,
    pub place: u64,
    pub kind: u8,
    pub offset: u64,
    pub size: u64,
}

pub fn pool_of(found: Result<Pool, Refusal>) -> SgubPool
    ensures { result ≡ pool_on (answer_of found) }
{
    match found {
        Ok(pool) => SgubPool {
            number: 0,
            place: 0,
            kind: pool.kind,
            offset: pool.offset as u64,
            size: pool.size as u64,
        },
        Err(refusal) => SgubPool {
            number: u32::from(refusal.rule),
            place: refusal.place as u64,
            ..SgubPool::default()
        },
    }
}
