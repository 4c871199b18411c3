// Lists the pools of a file into a lent run of entries, stored straight from the directory.
#![tactic(auto)]

mod listing;

ghost use Rattle.std.specs.Prelude.{◌≡◌};
ghost use Rattle.sgub_pool_list.specs.Entries.{listed_entry, entries_stored};

use base_format::Pool;
use check_pool_entry::read_pool;
pub use listing::{SgubPools, list_pools};

// An entry of the directory.
#[repr(C)]
#[derive(Clone, Copy)]
pub struct SgubPoolEntry {
    pub kind: u8,
    pub size: u32,
    pub offset: u32,
}

impl From<Pool> for SgubPoolEntry {
    ghost from_gives = { λ pool entry. entry ≡ listed_entry pool };

    fn from(pool: Pool) -> SgubPoolEntry {
        SgubPoolEntry {
            kind: pool.kind,
            size: pool.size,
            offset: pool.offset,
        }
    }
}

// The entries stand at the run's front, as many as it holds; no other record is touched.
pub fn store_pools(run: &mut [SgubPoolEntry], file: &[u8], directory: u32, count: u32)
    ensures { run.new ≡ entries_stored file.now directory count run.old }
{
    for id in 0..run.len().min(count as usize) {
        run[id] = SgubPoolEntry::from(read_pool(file, directory, id as u32));
    }
}
