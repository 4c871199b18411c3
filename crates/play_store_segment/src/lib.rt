// The lent run: a segment of write records, at successive addresses, of one value or of a part of the file, stored at a place.
#![tactic(auto)]

ghost use Rattle.std.specs.Prelude.{◌≡◌};
ghost use Rattle.play_store_segment.specs.Segment.{fitting, segment_stored};

use base_format::WriteRecord;
use bytes_read::passes;

// `count` records to a target, upward from an address: of one value, or, where `copied`, of as many bytes of the file from a place. It is a
// flag and no enum for speed: no enum is taken apart for each record.
#[derive(Clone, Copy)]
pub struct Segment {
    pub target: u8,
    pub address: u32,
    pub count: usize,
    pub copied: bool,
    pub value: u8,
    pub from: usize,
}

// How many of a segment's records are stored: all of them if they fit into the run from a place on, into the addresses and, where
// they are copied, into the file, and else none.
#[tactic(auto, unfolding(crate::specs::Segment::too_long, crate::specs::Segment::fitting))]
fn fitting(room: usize, at: usize, size: usize, segment: Segment) -> usize
    ensures { result ≡ fitting room at size segment }
{
    let count = segment.count;
    if passes(room, at, count)
        || passes(0x100000000, segment.address as usize, count)
        || segment.copied && passes(size, segment.from, count)
    {
        return 0;
    }
    count
}

// The segment stands at `at` where all of it fits; no other record is touched.
pub fn store_segment(run: &mut [WriteRecord], at: usize, file: &[u8], segment: Segment)
    ensures { run.new ≡ segment_stored file.now segment at run.old }
{
    let count = fitting(run.len(), at, file.len(), segment);
    for i in 0..count {
        let value = if segment.copied {
            file[segment.from + i]
        } else {
            segment.value
        };
        run[at + i] = WriteRecord {
            target: segment.target,
            address: segment.address + (i as u32),
            value,
        };
    }
}
