// The refusals of the sheet's list. A check answers with a Result whose error is a Refusal.

ghost use Rattle.std.specs.Prelude.{◌≡◌};
ghost use Rattle.base_format.specs.Number.{number_of};

use std::error::Error;
use std::fmt;

// The sheet's refusals, in its order.
#[derive(Clone, Copy, Debug)]
pub enum Rule {
    HeaderShort,
    Letters,
    Version,
    Voices,
    Flags,
    Period,
    CardEntry,
    Counts,
    Directory,
    PoolEntry,
    PoolPayload,
    Sections,
    Opcode,
    CutOff,
    NoTarget,
    WriteAddress,
    BulkRange,
    NoPool,
    CopyRange,
    Ending,
    OtherVersion,
    PcmOrder,
    ResultSize,
    LentSize,
    OtherFile,
    OtherIndex,
    NoFrame,
    NoteRange,
    FrameOperations,
    PoolCount,
}

// The sheet's numbers, for programs and other languages.
impl From<Rule> for u32 {
    ghost from_gives = { λ rule number. number ≡ number_of rule };

    fn from(rule: Rule) -> u32 {
        match rule {
            Rule::HeaderShort => 1,
            Rule::Letters => 2,
            Rule::Version => 3,
            Rule::Voices => 4,
            Rule::Flags => 5,
            Rule::Period => 6,
            Rule::CardEntry => 7,
            Rule::Counts => 8,
            Rule::Directory => 9,
            Rule::PoolEntry => 10,
            Rule::PoolPayload => 11,
            Rule::Sections => 12,
            Rule::Opcode => 13,
            Rule::CutOff => 14,
            Rule::NoTarget => 15,
            Rule::WriteAddress => 16,
            Rule::BulkRange => 17,
            Rule::NoPool => 18,
            Rule::CopyRange => 19,
            Rule::Ending => 20,
            Rule::OtherVersion => 21,
            Rule::PcmOrder => 22,
            Rule::ResultSize => 23,
            Rule::LentSize => 24,
            Rule::OtherFile => 25,
            Rule::OtherIndex => 26,
            Rule::NoFrame => 27,
            Rule::NoteRange => 28,
            Rule::FrameOperations => 29,
            Rule::PoolCount => 30,
        }
    }
}

// A refusal: its rule, and the place in the file.
#[derive(Clone, Copy, Debug)]
pub struct Refusal {
    pub rule: Rule,
    pub place: usize,
}

impl fmt::Display for Refusal {
    fn fmt<W: fmt::Write>(&self, f: &mut fmt::Formatter<W>) -> fmt::Result {
        write!(f, "refused {} {}", u32::from(self.rule), self.place)
    }
}

impl Error for Refusal {}
