// Building an index, for C and Rust: the index of an accepted file in a lent buffer.
ghost use Rattle.std.specs.Prelude.{◌≡◌, length};
ghost use Rattle.base_format.specs.Checked.{mapped};
ghost use Rattle.base_format.specs.Index.{index_into, index_after};
ghost use Rattle.sgub_results.specs.Surface.{indexed_on};

use sgub_results::SgubIndexed;

#[unsafe(no_mangle)]
pub extern "C" fn sgub_index(file: &[u8], buffer: &mut [u8]) -> SgubIndexed
    ensures { (result ≡ indexed_on (mapped length (index_into file.now (length buffer.old)))) × (buffer.new ≡ index_after file.now buffer.old) }
{
    sgub_results::indexed_of(index_build::build_index(file, buffer))
}
