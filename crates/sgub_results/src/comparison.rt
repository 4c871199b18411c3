// The answer of a comparison as plain numbers.
ghost use Rattle.std.specs.Prelude.{◌≡◌};
ghost use Rattle.base_format.specs.Compare.{refused_file};
ghost use Rattle.base_format.specs.Rule.{number_of};
ghost use Rattle.compare.specs.Answer.{compared_of};
ghost use Rattle.sgub_results.specs.Surface.{compared_on};

use base_format::Refusal;
use compare::CompareError;

// Which file is refused (0 none, 1 the master, 2 the other), by which number and where; and whether the files agree.
#[repr(C)]
#[derive(Clone, Copy)]
pub struct SgubCompared {
    pub file: u32,
    pub number: u32,
    pub place: u64,
    pub passed: bool,
}

fn refused(file: u32, refusal: Refusal) -> SgubCompared
    ensures { result ≡ compared_on (refused_file file (number_of refusal.rule) refusal.place) }
{
    SgubCompared {
        file,
        number: u32::from(refusal.rule),
        place: refusal.place as u64,
        passed: false,
    }
}

pub fn compared_of(answer: Result<bool, CompareError>) -> SgubCompared
    ensures { result ≡ compared_on (compared_of answer) }
{
    match answer {
        Ok(passed) => SgubCompared {
            file: 0,
            number: 0,
            place: 0,
            passed,
        },
        Err(CompareError::Master(refusal)) => refused(1, refusal),
        Err(CompareError::Other(refusal)) => refused(2, refusal),
    }
}
