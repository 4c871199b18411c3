// A file that must have a version: the rules 1 to 21, for the comparison and for joining.
#![tactic(auto)]

ghost use Rattle.std.specs.Prelude.{◌≡◌};
ghost use Rattle.base_format.specs.Rule.{answer_of};
ghost use Rattle.check_version.specs.Answer.{version_header};

use base_format::{Header, Refusal, Rule};
use base_refusal::refuse;
use check_file::check_file;

// An accepted file's header; or the refusal of the file, and 21 where its version is another.
pub fn check_version(file: &[u8], version: u8) -> Result<Header, Refusal>
    ensures { answer_of result ≡ version_header version file.now }
{
    let checked = check_file(file)?;
    let header = checked.header;
    refuse(Rule::OtherVersion, 0, header.version != version)?;
    Ok(header)
}
