// A part of the master, which is its opening or a frame, against the other file's.
ghost use Rattle.std.specs.Prelude.{◌≡◌, false, [], ◌≤◌};
ghost use Rattle.base_format.specs.Compare.{same_writes};
ghost use Rattle.base_format.specs.Size.{master_header_size};
ghost use Rattle.compare_segment.specs.Segments.{record_writes};
ghost use Rattle.compare_writes.specs.Match.{kept, same_part, matched_part};

use crate::run::{Records, is_kept, same_operation};
use base_format::{MASTER_HEADER_SIZE, RECORD_SIZE};
use bytes_operation::decode_record;
use bytes_read::item_bytes;
use compare_segment::segment_at;

// Whether none of so many records counts.
#[tactic(auto, using(crate::proofs::Match::none_step, crate::proofs::Match::none_end))]
fn none_kept(master: &[u8], records: Records, all: bool) -> bool
    requires { records.at ≤ 0x2000000000000000 }
    ensures { result ≡ same_writes (kept all (record_writes master.now records.left records.at)) [] }
{
    let mut at = records.at;
    for _i in 0..records.left {
        let item = decode_record(item_bytes(master, at));
        if is_kept(all, item.target) {
            return false;
        }
        at += RECORD_SIZE;
    }
    true
}

// So many records against so many operations from a place: where the operations end, or `None` where a write differs.
#[tactic(auto, using(crate::proofs::Match::part_step, crate::proofs::Match::part_end, crate::proofs::Match::operation_place, compare_segment::proofs::Near::next_near))]
pub fn same_part(
    master: &[u8],
    records: Records,
    all: bool,
    other: &[u8],
    directory: u32,
    other_start: usize,
    operations: u32,
) -> Option<usize>
    requires { (records.at ≤ 0x800000000000000) × (other_start ≤ 0x800000000000000) }
    ensures { result ≡ matched_part all master.now other.now directory records.left records.at operations other_start }
{
    let mut rest = records;
    let mut from = other_start;
    for _i in 0..operations {
        let segment = segment_at(other, directory, from);
        rest = same_operation(master, rest, all, other, segment)?;
        from = segment.next;
    }
    if none_kept(master, rest, all) {
        return Some(from);
    }
    None
}

// The opening's writes to cores: so many records, which stand behind the header, against so many operations from a place.
#[tactic(auto, unfolding(crate::specs::Match::matched_part))]
pub fn same_opening(
    master: &[u8],
    records: u32,
    other: &[u8],
    directory: u32,
    other_start: u32,
    operations: u32,
) -> bool
    ensures { result ≡ same_part false master.now other.now directory records master_header_size operations other_start }
{
    let opening = Records {
        at: MASTER_HEADER_SIZE,
        left: records,
    };
    same_part(
        master,
        opening,
        false,
        other,
        directory,
        other_start as usize,
        operations,
    )
    .is_some()
}
