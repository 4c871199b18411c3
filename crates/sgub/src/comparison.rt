// The comparison, for C and Rust: a master with a file of version 2, and two lent memory images.
ghost use Rattle.std.specs.Prelude.{◌≡◌, length};
ghost use Rattle.base_format.specs.Compare.{compared, master_image_of, other_image_of};
ghost use Rattle.sgub_results.specs.Surface.{compared_on};

use sgub_results::SgubCompared;

#[unsafe(no_mangle)]
pub extern "C" fn sgub_compare(
    master: &[u8],
    other: &[u8],
    master_image: &mut [u8],
    other_image: &mut [u8],
) -> SgubCompared
    ensures { (result ≡ compared_on (compared master.now other.now (length master_image.old) (length other_image.old)))
        × (master_image.new ≡ master_image_of master.now other.now master_image.old other_image.old)
        × (other_image.new ≡ other_image_of master.now other.now master_image.old other_image.old) }
{
    sgub_results::compared_of(compare::compare(master, other, master_image, other_image))
}
