// The answer of building an index as plain numbers.
ghost use Rattle.std.specs.Prelude.{◌≡◌};
ghost use Rattle.base_format.specs.Rule.{answer_of};
ghost use Rattle.sgub_results.specs.Surface.{indexed_on};

use base_format::Refusal;

// The length of the index, which stands at the buffer's start; or the refusal, with nothing written.
#[repr(C)]
#[derive(Clone, Copy)]
pub struct SgubIndexed {
    pub number: u32,
    pub place: u64,
    pub size: u64,
}

pub fn indexed_of(answer: Result<usize, Refusal>) -> SgubIndexed
    ensures { result ≡ indexed_on (answer_of answer) }
{
    match answer {
        Ok(size) => SgubIndexed {
            number: 0,
            place: 0,
            size: size as u64,
        },
        Err(refusal) => SgubIndexed {
            number: u32::from(refusal.rule),
            place: refusal.place as u64,
            size: 0,
        },
    }
}
