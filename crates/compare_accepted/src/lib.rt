// Two accepted files, a master and one of version 2, by their headers.
#![tactic(auto)]

ghost use Rattle.std.specs.Prelude.{◌≡◌};
ghost use Rattle.compare_accepted.specs.Accepted.{FramesWithin, frames_agree, agree_by, Drawn};

use base_format::{Header, MASTER_HEADER_SIZE, RECORD_SIZE};
use bytes_same::same_bytes;
use compare_images::{draw_master, draw_other};
use compare_writes::{same_frames, same_opening};

// The frames, if there are equally many.
#[tactic(auto, unfolding(crate::specs::Accepted::frames_agree))]
fn frames_agree(master: &[u8], header: Header, other: &[u8], other_header: Header) -> bool
    requires { FramesWithin header other_header }
    ensures { result ≡ frames_agree master.now header other.now other_header }
{
    let start = MASTER_HEADER_SIZE as u32 + header.initial_count * RECORD_SIZE as u32;
    header.frame_count == other_header.frame_count
        && same_frames(
            master,
            start,
            other,
            other_header.directory_offset,
            other_header.frame_start as u32,
            header.frame_count,
        )
}

// Whether the files agree, with the images that were drawn of them.
#[tactic(auto, unfolding(crate::specs::Accepted::agree_by))]
fn agree_by(
    master: &[u8],
    header: Header,
    other: &[u8],
    other_header: Header,
    image: &[u8],
    other_image: &[u8],
) -> bool
    requires { FramesWithin header other_header }
    ensures { result ≡ agree_by master.now header other.now other_header image.now other_image.now }
{
    header.repeat == other_header.repeat
        && same_opening(
            master,
            header.initial_count,
            other,
            other_header.directory_offset,
            other_header.initial_start,
            other_header.initial_count,
        )
        && same_bytes(image, other_image)
        && frames_agree(master, header, other, other_header)
}

// Draws both images, and says whether the files agree.
pub fn compare_accepted(
    master: &[u8],
    header: Header,
    other: &[u8],
    other_header: Header,
    image: &mut [u8],
    other_image: &mut [u8],
) -> bool
    requires { FramesWithin header other_header }
    ensures { Drawn result master.now header other.now other_header image.old other_image.old image.new other_image.new }
{
    draw_master(master, header.initial_count, image);
    draw_other(
        other,
        other_header.directory_offset,
        other_header.initial_start,
        other_header.initial_count,
        other_image,
    );
    agree_by(master, header, other, other_header, image, other_image)
}
