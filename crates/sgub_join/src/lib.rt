// The answer of joining as plain numbers, for C and Rust: the kit exports no type that holds an enum.
#![tactic(auto)]

ghost use Rattle.std.specs.Prelude.{◌≡◌};
ghost use Rattle.join.specs.Answer.{joined_of};
ghost use Rattle.sgub_join.specs.Surface.{joined_on, refused_on};

use base_format::Refusal;
use join::JoinError;

// Which file is refused (0 none, or both together; 1 the first, 2 the second), by which number and where; and the length of the joined
// file, which stands at the buffer's start.
#[repr(C)]
#[derive(Clone, Copy)]
pub struct SgubJoined {
    pub file: u32,
    pub number: u32,
    pub place: u64,
    pub size: u64,
}

fn refused(file: u32, refusal: Refusal) -> SgubJoined
    ensures { result ≡ refused_on file refusal }
{
    SgubJoined {
        file,
        number: u32::from(refusal.rule),
        place: refusal.place as u64,
        size: 0,
    }
}

pub fn joined_of(answer: Result<usize, JoinError>) -> SgubJoined
    ensures { result ≡ joined_on (joined_of answer) }
{
    match answer {
        Ok(size) => SgubJoined {
            file: 0,
            number: 0,
            place: 0,
            size: size as u64,
        },
        Err(JoinError::First(refusal)) => refused(1, refusal),
        Err(JoinError::Second(refusal)) => refused(2, refusal),
        Err(JoinError::Neither(refusal)) => refused(0, refusal),
    }
}
