// `frequency` of the original without a base note: the pitch register of a note and a shift.
#![tactic(auto)]

ghost use Rattle.std.specs.Prelude.{◌≡◌, false, pos, ◌+ℤ◌, ◌<◌};
ghost use Rattle.base_format.specs.Rule.{answer_of};
ghost use Rattle.pitch_table.specs.Pitch.{sum_at};
ghost use Rattle.pitch_frequency.specs.Frequency.{out_of_range, frequency_of};

use base_format::{Refusal, Rule};
use pitch_table::pitch_at;

// Whether the note is above 127, or the shift outside -48 to 48.
#[tactic(auto, unfolding(crate::specs::Frequency::out_of_range))]
fn out_of_range(note: u8, semitones: i8) -> bool
    ensures { result ≡ out_of_range note semitones }
{
    (127 < note) | (semitones < -48) | (48 < semitones)
}

// The place in the list of the sum of a note and a shift: the list begins at -48, and with 48 added no shift is negative.
#[tactic(auto, unfolding(crate::specs::Frequency::out_of_range))]
fn place_of(note: u8, semitones: i8) -> usize
    requires { out_of_range note semitones ≡ false }
    ensures { (sum_at result ≡ pos note +ℤ semitones) × (result < 224) }
{
    note as usize + (semitones + 48) as usize
}

// The pitch register of a note and a shift in semitones.
#[tactic(auto, unfolding(crate::specs::Frequency::frequency_of))]
pub fn frequency(note: u8, semitones: i8) -> Result<u16, Refusal>
    ensures { answer_of result ≡ frequency_of note semitones }
{
    if out_of_range(note, semitones) {
        return Err(Refusal {
            rule: Rule::NoteRange,
            place: 0,
        });
    }
    Ok(pitch_at(place_of(note, semitones)))
}
