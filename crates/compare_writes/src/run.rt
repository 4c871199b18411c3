// A master's records against the writes of one operation.
ghost use Rattle.std.specs.Prelude.{◌≡◌, ◌≤◌};
ghost use Rattle.base_format.specs.Compare.{same_write};
ghost use Rattle.base_format.specs.Writes.{write};
ghost use Rattle.compare_segment.specs.Segments.{write_by};
ghost use Rattle.compare_writes.specs.Match.{keeps, matched_segment, matched_operation};

use base_format::RECORD_SIZE;
use bytes_operation::{Decoded, decode_record};
use bytes_read::{byte_at, item_bytes};
use compare_segment::{Segment, step_of};

// So many records of the master, from a place on.
#[derive(Clone, Copy)]
pub struct Records {
    pub at: usize,
    pub left: u32,
}

// Whether a write to a target counts: each does in a frame, those to cores in an opening.
pub fn is_kept(all: bool, target: u8) -> bool
    ensures { result ≡ keeps all target }
{
    all || target < 2
}

// Whether a record is a write.
fn same_record(item: Decoded, target: u8, address: usize, value: u8) -> bool
    ensures { result ≡ same_write (write_by item) (write target address value) }
{
    item.target == target && item.address as usize == address && item.value == value
}

// The records behind those that agree with a segment, or `None` where one differs.
#[tactic(auto, using(crate::proofs::Match::matched_step, crate::proofs::Match::matched_end, crate::proofs::Match::matched_short))]
fn same_segment(
    master: &[u8],
    records: Records,
    all: bool,
    other: &[u8],
    segment: Segment,
) -> Option<Records>
    requires { (records.at ≤ 0x1000000000000000) × (segment.source ≤ 0x2000000000000000) }
    ensures { result ≡ matched_segment all master.now other.now records.left records.at segment }
{
    let mut at = records.at;
    let mut left = records.left;
    let mut count = segment.count;
    let mut address = segment.address as usize;
    let mut source = segment.source;
    let step = step_of(segment.copied);
    // Not a `for`: a turn takes one of the records left, and one of the writes left only where the record counts.
    while 0 < count {
        if left == 0 {
            return None;
        }
        let item = decode_record(item_bytes(master, at));
        if is_kept(all, item.target) {
            let value = byte_at(other, source);
            if !same_record(item, segment.target, address, value) {
                return None;
            }
            count -= 1;
            address += 1;
            source += step;
        }
        at += RECORD_SIZE;
        left -= 1;
    }
    Some(Records { at, left })
}

// The same for a segment that may not count.
#[tactic(auto, unfolding(crate::specs::Match::matched_operation))]
pub fn same_operation(
    master: &[u8],
    records: Records,
    all: bool,
    other: &[u8],
    segment: Segment,
) -> Option<Records>
    requires { (records.at ≤ 0x1000000000000000) × (segment.source ≤ 0x2000000000000000) }
    ensures { result ≡ matched_operation all master.now other.now records.left records.at segment }
{
    if is_kept(all, segment.target) {
        return same_segment(master, records, all, other, segment);
    }
    Some(records)
}
