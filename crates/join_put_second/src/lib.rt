// The frames of the second file in a joined one: its opening operations before those of its own first frame, and every COPY renumbered.
// The bytes are copied in two runs, of the opening and of what stands behind the first count; then the pools are written anew.
#![tactic(auto)]

ghost use Rattle.std.specs.Prelude.{◌≡◌, ◌+◌, length};
ghost use Rattle.bytes_read.specs.Put.{put};
ghost use Rattle.join_put_second.specs.Second.{SecondFits, opening_run, behind_run, second_bytes};

use base_format::{COUNT_SIZE, Header};
use bytes_copy::copy_part;
use bytes_put_items::put_count;
use bytes_read::read_u16;
use join_renumber::{renumber_frames, renumber_items};

// The opening's operations.
fn put_opening(file: &[u8], header: Header, before: u32, buffer: &mut [u8], shift: usize)
    requires { SecondFits file.now header before (length buffer.old) shift }
    ensures { buffer.new ≡ put (opening_run file.now before) (header.initial_start + (shift + 2)) buffer.old }
{
    let start = header.initial_start as usize;
    let moved = shift + COUNT_SIZE;
    copy_part(
        file,
        start,
        header.frame_start - start,
        buffer,
        start + moved,
    );
    renumber_items(file, header.initial_count, start, before, buffer, moved);
}

// The operations of the first frame and the frames behind it.
fn put_behind(file: &[u8], header: Header, before: u32, buffer: &mut [u8], shift: usize)
    requires { SecondFits file.now header before (length buffer.old) shift }
    ensures { buffer.new ≡ put (behind_run file.now before) (header.frame_start + 2 + shift) buffer.old }
{
    let start = header.frame_start + COUNT_SIZE;
    copy_part(file, start, file.len() - start, buffer, start + shift);
    renumber_frames(
        file,
        header.frame_count,
        header.frame_start,
        before,
        buffer,
        shift,
    );
}

// The frames of the second file: each byte stands `shift` bytes behind its place in the file, but for the count, which stands before the
// opening.
pub fn put_second(file: &[u8], header: Header, before: u32, buffer: &mut [u8], shift: usize)
    requires { SecondFits file.now header before (length buffer.old) shift }
    ensures { buffer.new ≡ put (second_bytes file.now before) (header.initial_start + shift) buffer.old }
{
    let frame = read_u16(file, header.frame_start) as u32;
    let count = header.initial_count + frame;
    put_count(buffer, header.initial_start as usize + shift, count as u16);
    put_opening(file, header, before, buffer, shift);
    put_behind(file, header, before, buffer, shift);
}
