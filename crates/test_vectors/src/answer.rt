// An answer as a list stores it.

ghost use Rattle.std.specs.Prelude.{◌≡◌};
ghost use Rattle.base_format.specs.Bytes.{be};
ghost use Rattle.test_vectors.specs.Told.{stored_answer, meant};

use base_format::Refusal;
use bytes_read::read_u32;

// The number and the place of a refusal, or 0 and 0 and the value.
#[derive(Clone, Copy, PartialEq, Eq)]
pub struct StoredAnswer {
    pub number: u32,
    pub place: usize,
    pub value: usize,
}

impl StoredAnswer {
    // The answer that is stored in twelve bytes.
    pub fn read(stored: &[u8]) -> StoredAnswer
        ensures { (result.number ≡ be 4 stored.now 0) × (result.place ≡ be 4 stored.now 4) × (result.value ≡ be 4 stored.now 8) }
    {
        StoredAnswer {
            number: read_u32(stored, 0),
            place: read_u32(stored, 4) as usize,
            value: read_u32(stored, 8) as usize,
        }
    }

    // What an answer can be held against: a value has no place, and a refusal no value.
    #[tactic(auto, unfolding(crate::specs::Told::meant))]
    pub fn meant(self) -> StoredAnswer
        ensures { result ≡ meant self }
    {
        if self.number == 0 {
            StoredAnswer { place: 0, ..self }
        } else {
            StoredAnswer { value: 0, ..self }
        }
    }
}

impl From<Result<usize, Refusal>> for StoredAnswer {
    ghost from_gives = { λ given answer. answer ≡ stored_answer given };

    fn from(given: Result<usize, Refusal>) -> StoredAnswer {
        match given {
            Ok(value) => StoredAnswer {
                number: 0,
                place: 0,
                value,
            },
            Err(refusal) => StoredAnswer {
                number: u32::from(refusal.rule),
                place: refusal.place,
                value: 0,
            },
        }
    }
}
