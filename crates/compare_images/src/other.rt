// The memory image of a version 2 file: begun at 0x80, and given the PCM writes of its opening.
ghost use Rattle.std.specs.Prelude.{◌≡◌, ◌≤◌, length, replicate};
ghost use Rattle.base_format.specs.Compare.{played};
ghost use Rattle.compare_segment.specs.Segments.{segment_writes, operation_writes};

use bytes_read::byte_at;
use compare_image_bytes::{begin_image, copy, fill};
use compare_segment::{Segment, segment_at};

// The writes of an operation. Those of an accepted file lie in the memory; what would not is left out.
#[tactic(auto, using(compare_image_bytes::proofs::Image::copy_other, compare_image_bytes::proofs::Image::copy_past, compare_image_bytes::proofs::Image::copy_min, compare_image_bytes::proofs::Image::fill_min))]
fn play_segment(file: &[u8], segment: Segment, image: &mut [u8])
    requires { segment.source ≤ 0x2000000000000000 }
    ensures { image.new ≡ played image.old (segment_writes file.now segment) }
{
    if segment.target != 2 {
        return;
    }
    let address = segment.address as usize;
    if image.len() <= address {
        return;
    }
    let count = (segment.count as usize).min(image.len() - address);
    let source = segment.source;
    if segment.copied {
        copy(image, address, count, file, source);
    } else {
        fill(image, address, count, byte_at(file, source));
    }
}

// The writes of so many operations from a place.
#[tactic(auto, using(compare_image_bytes::proofs::Image::operations_step, compare_image_bytes::proofs::Image::operations_end_lem, compare_segment::proofs::Near::next_near))]
fn play_operations(file: &[u8], directory: u32, start: usize, count: u32, image: &mut [u8])
    requires { start ≤ 0x1000000000 }
    ensures { image.new ≡ played image.old (operation_writes file.now directory count start) }
{
    let mut at = start;
    for _i in 0..count {
        let segment = segment_at(file, directory, at);
        play_segment(file, segment, image);
        at = segment.next;
    }
}

// The image of a version 2 file.
pub fn draw_other(other: &[u8], directory: u32, start: u32, operations: u32, image: &mut [u8])
    ensures { image.new ≡ played (replicate (length image.old) 0x80) (operation_writes other.now directory operations start) }
{
    begin_image(image);
    play_operations(other, directory, start as usize, operations, image);
}
