// What a listing of pools says of the file, and stores of it.
ghost use Rattle.std.specs.Prelude.{◌≡◌};
ghost use Rattle.check_file.specs.Answer.{recorded};
ghost use Rattle.sgub_pool_list.specs.Listing.{pools_on, pools_after};

use crate::{SgubPoolEntry, store_pools};
use check_file::check_file;

// The verdict on a file, and how many pools it has. It is exported, and the kit exports no type that holds an enum.
#[repr(C)]
#[derive(Clone, Copy)]
pub struct SgubPools {
    pub number: u32,
    pub place: u64,
    pub count: u64,
}

// Checks the whole file, and stores its entries: as many as the run holds, and none of a refused file.
pub fn list_pools(file: &[u8], run: &mut [SgubPoolEntry]) -> SgubPools
    ensures { (result ≡ pools_on (recorded file.now)) × (run.new ≡ pools_after file.now (recorded file.now) run.old) }
{
    match check_file(file) {
        Ok(found) => {
            let header = found.header;
            store_pools(run, file, header.directory_offset, header.pool_count);
            SgubPools {
                number: 0,
                place: 0,
                count: header.pool_count as u64,
            }
        }
        Err(refusal) => SgubPools {
            number: u32::from(refusal.rule),
            place: refusal.place as u64,
            count: 0,
        },
    }
}
