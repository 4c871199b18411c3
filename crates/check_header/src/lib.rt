// Reads the header, with the sheet's rules 1 to 6.
#![tactic(auto)]

ghost use Rattle.std.specs.Prelude.{◌≡◌};
ghost use Rattle.base_format.specs.Header.{header_from};
ghost use Rattle.base_format.specs.Rule.{answer_of};

use base_format::{Header, Refusal, Rule};
use base_refusal::refuse;
use bytes_read::{byte_at, read_u32};
use check_header_fields::header_of;
use check_header_rules::{flags_wrong, header_size, period_wrong};

// The header's fields, or the first of the rules 1 to 6 that it breaks.
#[tactic(auto, unfolding(base_format::specs::Header::header_from), using(base_format::proofs::Answered::passed_on, base_format::proofs::Answered::refused_first))]
pub fn read_header(file: &[u8]) -> Result<Header, Refusal>
    ensures { answer_of result ≡ header_from file.now }
{
    let version = byte_at(file, 4);
    refuse(Rule::HeaderShort, 0, file.len() < header_size(version))?;
    refuse(Rule::Letters, 0, read_u32(file, 0) != 0x53475542)?;
    refuse(Rule::Version, 0, (version == 0) | (4 < version))?;
    refuse(Rule::Voices, 0, byte_at(file, 5) != 16)?;
    refuse(Rule::Flags, 0, flags_wrong(file, version))?;
    let header = header_of(file);
    refuse(Rule::Period, 0, period_wrong(header.frame_period))?;
    Ok(header)
}
