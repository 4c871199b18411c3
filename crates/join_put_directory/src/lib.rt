// The pool directory of a joined file: the entries of one file, renumbered, with their payloads moved.
#![tactic(auto)]

ghost use Rattle.std.specs.Prelude.{◌≡◌, length};
ghost use Rattle.bytes_read.specs.Put.{put};
ghost use Rattle.join_put_directory.specs.Entries.{EntriesFit, entries_moved};

use base_format::{ENTRY_SIZE, POOLED_HEADER_SIZE};
use bytes_put_tables::put_entry;
use check_pool_entry::read_pool;

// The entries of so many pools: the first gets an id, and each payload stands so many bytes further on.
pub fn put_entries(file: &[u8], count: u32, buffer: &mut [u8], at: usize, id: u32, moved: u32)
    requires { EntriesFit file.now count (length buffer.old) at id moved }
    ensures { buffer.new ≡ put (entries_moved file.now id moved 0 count) at buffer.old }
{
    let directory = POOLED_HEADER_SIZE as u32;
    let mut place = at;
    let mut entry = 0;
    while entry < count {
        let pool = read_pool(file, directory, entry);
        let number = id + entry;
        put_entry(
            buffer,
            place,
            number as u16,
            pool.kind,
            pool.size,
            pool.offset + moved,
        );
        place += ENTRY_SIZE;
        entry += 1;
    }
}
