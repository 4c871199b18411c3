// What the rules 8, 9 and 12 refuse: the counts and the total size, the directory, and the places of opening and frames.
ghost use Rattle.std.specs.Prelude.{◌≡◌};
ghost use Rattle.base_format.specs.Stream.{counts_wrong, sections_wrong};
ghost use Rattle.check_tables.specs.Directory.{directory_wrong};

use base_format::{CARD_SIZE, ENTRY_SIZE, FILE_LIMIT, Header};
use check_header_rules::header_size;

// What rule 8 refuses.
#[tactic(auto, unfolding(base_format::specs::Stream::counts_wrong), using(check_header_rules::proofs::Size::header_small))]
pub fn counts_wrong(header: Header, length: usize) -> bool
    ensures { result ≡ counts_wrong header length }
{
    let behind = header_size(header.version) + header.card_count as usize * CARD_SIZE;
    header.frame_count == 0
        || FILE_LIMIT < header.total_size
        || header.total_size as usize != length
        || 65536 < header.pool_count
        || header.directory_offset as usize != behind
}

// What rule 9 refuses.
pub fn directory_wrong(header: Header, length: usize) -> bool
    ensures { result ≡ directory_wrong header length }
{
    length < header.directory_offset as usize + header.pool_count as usize * ENTRY_SIZE
}

// What rule 12 refuses.
#[tactic(auto, unfolding(base_format::specs::Stream::sections_wrong))]
pub fn sections_wrong(header: Header, end: usize, length: usize) -> bool
    ensures { result ≡ sections_wrong header end length }
{
    header.initial_start as usize != end
        || header.frame_start < header.initial_start as usize
        || length < header.frame_start
}
