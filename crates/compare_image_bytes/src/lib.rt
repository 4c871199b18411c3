// Memory images: one value or some bytes of a file, stored in one.
#![tactic(auto)]

ghost use Rattle.std.specs.Prelude.{◌≡◌, ◌+◌, ◌≤◌, length, replicate};
ghost use Rattle.base_format.specs.Compare.{played};
ghost use Rattle.base_format.specs.Writes.{upward};
ghost use Rattle.compare_segment.specs.Segments.{spread};

use bytes_read::byte_at;

// One value, so often.
#[tactic(auto, using(crate::proofs::Image::fill_step_lem, crate::proofs::Image::fill_end))]
pub fn fill(image: &mut [u8], address: usize, count: usize, value: u8)
    requires { address + count ≤ length image.old }
    ensures { image.new ≡ played image.old (upward 2 address (replicate count value)) }
{
    for i in 0..count {
        image[address + i] = value;
    }
}

// So many bytes of a file.
#[tactic(auto, using(crate::proofs::Image::copy_step, crate::proofs::Image::copy_end))]
pub fn copy(image: &mut [u8], address: usize, count: usize, file: &[u8], source: usize)
    requires { (address + count ≤ length image.old) × (source ≤ 0x2000000000000000) × (count ≤ 0x100000000) }
    ensures { image.new ≡ played image.old (spread file.now 2 address source 1 count) }
{
    for i in 0..count {
        image[address + i] = byte_at(file, source + i);
    }
}

// A memory that nothing was written to.
pub fn begin_image(image: &mut [u8])
    ensures { image.new ≡ replicate (length image.old) 0x80 }
{
    image.fill(0x80);
}
