// The frames of both files.
ghost use Rattle.std.specs.Prelude.{◌≡◌};
ghost use Rattle.compare_writes.specs.Match.{same_frames_at};

use crate::part::same_part;
use crate::run::Records;
use base_format::{COUNT_SIZE, RECORD_SIZE};
use bytes_read::read_u16;

// So many frames of each file, from a place on.
#[tactic(auto, unfolding(crate::specs::Match::matched_part), using(crate::proofs::Match::frames_step, crate::proofs::Match::frames_end_lem, compare_segment::proofs::Near::stop_near))]
pub fn same_frames(
    master: &[u8],
    start: u32,
    other: &[u8],
    directory: u32,
    other_start: u32,
    frames: u32,
) -> bool
    ensures { result ≡ same_frames_at master.now other.now directory frames start other_start }
{
    let mut at = start as usize;
    let mut from = other_start as usize;
    for _i in 0..frames {
        let records = Records {
            at: at + COUNT_SIZE,
            left: read_u16(master, at) as u32,
        };
        let operations = read_u16(other, from);
        match same_part(
            master,
            records,
            true,
            other,
            directory,
            from + COUNT_SIZE,
            operations as u32,
        ) {
            Some(next) => from = next,
            None => return false,
        }
        at = records.at + records.left as usize * RECORD_SIZE;
    }
    true
}
