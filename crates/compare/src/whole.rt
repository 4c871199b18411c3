// The comparison of any two files.
ghost use Rattle.std.specs.Prelude.{◌≡◌};
ghost use Rattle.base_format.specs.Checked.{ok};
ghost use Rattle.base_format.specs.Size.{pcm_size};
ghost use Rattle.check_version.specs.Answer.{version_header};
ghost use Rattle.compare.specs.Answer.{compared_of, ComparedWith};

use base_format::{Header, PCM_SIZE, Refusal, Rule};
use check_version::check_version;
use compare_accepted::compare_accepted;
use std::error::Error;
use std::fmt;

// The file that is refused, and its refusal.
#[derive(Clone, Copy, Debug)]
pub enum CompareError {
    Master(Refusal),
    Other(Refusal),
}

impl fmt::Display for CompareError {
    fn fmt<W: fmt::Write>(&self, f: &mut fmt::Formatter<W>) -> fmt::Result {
        match self {
            CompareError::Master(refusal) => write!(f, "the master is {refusal}"),
            CompareError::Other(refusal) => write!(f, "the other file is {refusal}"),
        }
    }
}

impl Error for CompareError {}

// The bytes of a memory image. It is a call, so that no proof computes with so large a number.
fn image_size() -> usize
    ensures { result ≡ pcm_size }
{
    PCM_SIZE
}

fn too_short() -> Refusal
    ensures { result ≡ record { rule = Rule.LentSize; place = 0 } }
{
    Refusal {
        rule: Rule::LentSize,
        place: 0,
    }
}

// The comparison of two files that are accepted and have their versions.
fn compare_headers(
    master: &[u8],
    header: Header,
    other: &[u8],
    other_header: Header,
    master_image: &mut [u8],
    other_image: &mut [u8],
) -> Result<bool, CompareError>
    requires { (version_header 1 master.now ≡ ok header) × (version_header 2 other.now ≡ ok other_header) }
    ensures { ComparedWith (compared_of result) master.now other.now master_image.old other_image.old
        master_image.new other_image.new }
{
    let size = image_size();
    if master_image.len() < size {
        return Err(CompareError::Master(too_short()));
    }
    if other_image.len() < size {
        return Err(CompareError::Other(too_short()));
    }
    Ok(compare_accepted(
        master,
        header,
        other,
        other_header,
        &mut master_image[..size],
        &mut other_image[..size],
    ))
}

// Whether a master and a file of version 2 agree, or which one is refused. Where neither is, the images hold the memory that each
// file's opening leaves, whether they agree or not.
pub fn compare(
    master: &[u8],
    other: &[u8],
    master_image: &mut [u8],
    other_image: &mut [u8],
) -> Result<bool, CompareError>
    ensures { ComparedWith (compared_of result) master.now other.now master_image.old other_image.old
        master_image.new other_image.new }
{
    let header = check_version(master, 1).map_err(CompareError::Master)?;
    let other_header = check_version(other, 2).map_err(CompareError::Other)?;
    compare_headers(
        master,
        header,
        other,
        other_header,
        master_image,
        other_image,
    )
}
