// The pools of a file, for C and Rust: the file is checked once, and its directory listed into a lent run of entries.
ghost use Rattle.std.specs.Prelude.{◌≡◌};
ghost use Rattle.check_file.specs.Answer.{recorded};
ghost use Rattle.sgub_pool_list.specs.Listing.{pools_on, pools_after};

use sgub_pool_list::{SgubPoolEntry, SgubPools};

// As many entries as the run holds, from id 0 on; records behind them stay as they were, and all of them where the file is refused.
#[unsafe(no_mangle)]
pub extern "C" fn sgub_pools(file: &[u8], pools: &mut [SgubPoolEntry]) -> SgubPools
    ensures { (result ≡ pools_on (recorded file.now)) × (pools.new ≡ pools_after file.now (recorded file.now) pools.old) }
{
    sgub_pool_list::list_pools(file, pools)
}
