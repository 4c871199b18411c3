// Walks over the pools, with the sheet's rules 10 and 11.
#![tactic(auto)]

ghost use Rattle.std.specs.Prelude.{◌≡◌, ◌+◌, ◌*◌};
ghost use Rattle.base_format.specs.Rule.{answer_of};
ghost use Rattle.base_format.specs.Size.{entry_size};
ghost use Rattle.check_pools.specs.Pools.{pools_end};

use base_format::{ENTRY_SIZE, Header, Refusal};
pub use check_pool_entry::read_pool;
use check_pool_rules::check_pool;

// The place behind the last payload of a file with its header. The payloads start behind the directory.
pub fn check_pools(file: &[u8], header: Header) -> Result<usize, Refusal>
    ensures { answer_of result ≡ pools_end header.version file.now header.directory_offset header.pool_count 0 (header.directory_offset + header.pool_count * entry_size) }
{
    let version = header.version;
    let directory = header.directory_offset;
    let count = header.pool_count;
    let mut start = directory as usize + count as usize * ENTRY_SIZE;
    for id in 0..count {
        let at = directory as usize + id as usize * ENTRY_SIZE;
        let pool = read_pool(file, directory, id);
        check_pool(file, version, at, id, start, pool)?;
        start += pool.size as usize;
    }
    Ok(start)
}
