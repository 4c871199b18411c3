// Bytes copied from a file into a buffer, a run at a time.
#![tactic(auto)]

ghost use Rattle.std.specs.Prelude.{◌≡◌, ◌+◌, ◌≤◌, length};
ghost use Rattle.base_format.specs.Bytes.{part};
ghost use Rattle.bytes_read.specs.Put.{put};

// All bytes of one slice into another of the same length. It is a loop, which the compiler copies by blocks: `copy_from_slice` would be a
// call of `memmove`, a name that the library does not ask its caller for.
fn copy_all(from: &[u8], to: &mut [u8])
    requires { length from.now ≡ length to.old }
    ensures { to.new ≡ from.now }
{
    for i in 0..from.len() {
        to[i] = from[i];
    }
}

// So many bytes of a file from a place, to a place of a buffer.
#[tactic(auto, using(bytes_store::proofs::Laws::put_part, base_format::proofs::Bytes::part_length))]
pub fn copy_part(file: &[u8], from: usize, size: usize, buffer: &mut [u8], at: usize)
    requires { (from + size ≤ length file.now) × (at + size ≤ length buffer.old) }
    ensures { buffer.new ≡ put (part file.now from size) at buffer.old }
{
    copy_all(&file[from..from + size], &mut buffer[at..at + size]);
}
