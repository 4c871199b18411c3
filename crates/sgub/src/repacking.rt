// Repacking, for C and Rust: a master as a file of version 2 in a lent buffer.
ghost use Rattle.std.specs.Prelude.{◌≡◌, length};
ghost use Rattle.base_format.specs.Checked.{mapped};
ghost use Rattle.base_format.specs.Repack.{repack_into, buffer_after};
ghost use Rattle.sgub_results.specs.Surface.{repacked_on};

use sgub_results::SgubRepacked;

#[unsafe(no_mangle)]
pub extern "C" fn sgub_repack(file: &[u8], buffer: &mut [u8]) -> SgubRepacked
    ensures { (result ≡ repacked_on (mapped length (repack_into file.now (length buffer.old)))) × (buffer.new ≡ buffer_after file.now buffer.old) }
{
    sgub_results::repacked_of(repack::compile_song_v2(file, buffer))
}
