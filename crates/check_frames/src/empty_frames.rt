// Passes the empty frames in front of others, which a file may have many of.
ghost use Rattle.std.specs.Prelude.{◌≡◌, ◌+◌, not, ◌&&◌, eqb, ltb, length};
ghost use Rattle.base_format.specs.Bytes.{be};
ghost use Rattle.check_frames.specs.Skipped.{skipped};

use bytes_read::read_u16;

// Whether a frame's count lacks bytes before the file's end. No sum is made that could wrap.
pub fn count_cut_off(file: &[u8], at: usize) -> bool
    ensures { result ≡ ltb (length file.now) (at + 2) }
{
    file.len() < 2 || file.len() - 2 < at
}

// Whether a frame's count is there, and is 0.
fn empty_at(file: &[u8], at: usize) -> bool
    ensures { result ≡ (not (ltb (length file.now) (at + 2)) && eqb (be 2 file.now at) 0) }
{
    !count_cut_off(file, at) && read_u16(file, at) == 0
}

// Where a frame starts, and how many frames are left there.
#[derive(Clone, Copy)]
pub struct FramesLeft {
    pub at: usize,
    pub left: u32,
}

// Passes the empty frames in front of so many, but for the last.
// It is a function of its own for LLVM too, which then puts its loop on a boundary.
#[inline(never)]
pub fn skip_empty(file: &[u8], count: u32, start: usize) -> FramesLeft
    ensures { result ≡ skipped file.now count start }
{
    let mut at = start;
    for passed in 0..count.saturating_sub(1) {
        if !empty_at(file, at) {
            return FramesLeft {
                at,
                left: count - passed,
            };
        }
        at += 2;
    }
    FramesLeft {
        at,
        left: count.min(1),
    }
}
