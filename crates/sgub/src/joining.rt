// Joining, for C and Rust: two files of version 2 as one, in a lent buffer.
ghost use Rattle.std.specs.Prelude.{◌≡◌, length};
ghost use Rattle.join_stream.specs.Join.{join_said, join_after};
ghost use Rattle.sgub_join.specs.Surface.{joined_on};

use sgub_join::SgubJoined;

#[unsafe(no_mangle)]
pub extern "C" fn sgub_join(first: &[u8], second: &[u8], buffer: &mut [u8]) -> SgubJoined
    ensures { (result ≡ joined_on (join_said first.now second.now (length buffer.old)))
        × (buffer.new ≡ join_after first.now second.now buffer.old) }
{
    sgub_join::joined_of(join::join(first, second, buffer))
}
