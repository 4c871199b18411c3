// The verdict on a file as plain numbers.
ghost use Rattle.std.specs.Prelude.{◌≡◌};
ghost use Rattle.base_format.specs.Rule.{answer_of};
ghost use Rattle.sgub_answers.specs.Surface.{accepted_as, verdict_on};

use base_format::{Header, Refusal};
use check_file::Recorded;

// The verdict on a file. Where it is refused, all that follows the place is 0.
#[repr(C)]
#[derive(Clone, Copy, Default)]
pub struct SgubVerdict {
    pub number: u32,
    pub place: u64,
    pub version: u8,
    pub repeats: bool,
    pub uses_si22: bool,
    pub card_count: u8,
    pub frame_period: u32,
    pub frame_count: u32,
    pub pool_count: u32,
    pub initial_count: u32,
    pub directory_offset: u32,
    pub initial_start: u32,
    pub frame_start: u64,
    pub total_size: u32,
}

// The verdict on an accepted file.
fn accepted(header: Header, uses_si22: bool) -> SgubVerdict
    ensures { result ≡ accepted_as header uses_si22 }
{
    SgubVerdict {
        number: 0,
        place: 0,
        version: header.version,
        repeats: header.repeat,
        uses_si22,
        card_count: header.card_count,
        frame_period: header.frame_period,
        frame_count: header.frame_count,
        pool_count: header.pool_count,
        initial_count: header.initial_count,
        directory_offset: header.directory_offset,
        initial_start: header.initial_start,
        frame_start: header.frame_start as u64,
        total_size: header.total_size,
    }
}

pub fn verdict_of(checked: Result<Recorded, Refusal>) -> SgubVerdict
    ensures { result ≡ verdict_on (answer_of checked) }
{
    match checked {
        Ok(found) => accepted(found.header, found.uses_si22),
        Err(refusal) => SgubVerdict {
            number: u32::from(refusal.rule),
            place: refusal.place as u64,
            ..SgubVerdict::default()
        },
    }
}
