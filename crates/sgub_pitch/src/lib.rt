// The answer of `frequency` as plain numbers, for C and Rust: the kit exports no type that holds an enum.
#![tactic(auto)]

ghost use Rattle.std.specs.Prelude.{◌≡◌};
ghost use Rattle.base_format.specs.Rule.{answer_of};
ghost use Rattle.sgub_pitch.specs.Surface.{frequency_on};

use base_format::Refusal;

// The pitch; or the refusal, with pitch 0.
#[repr(C)]
#[derive(Clone, Copy)]
pub struct SgubFrequency {
    pub number: u32,
    pub place: u64,
    pub pitch: u16,
}

pub fn frequency_of(answer: Result<u16, Refusal>) -> SgubFrequency
    ensures { result ≡ frequency_on (answer_of answer) }
{
    match answer {
        Ok(pitch) => SgubFrequency {
            number: 0,
            place: 0,
            pitch,
        },
        Err(refusal) => SgubFrequency {
            number: u32::from(refusal.rule),
            place: refusal.place as u64,
            pitch: 0,
        },
    }
}
