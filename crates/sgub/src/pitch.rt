// The pitch register of a note and a shift, for C and Rust.
ghost use Rattle.std.specs.Prelude.{◌≡◌};
ghost use Rattle.pitch_frequency.specs.Frequency.{frequency_of};
ghost use Rattle.sgub_pitch.specs.Surface.{frequency_on};

use sgub_pitch::SgubFrequency;

#[unsafe(no_mangle)]
pub extern "C" fn sgub_frequency(note: u8, semitones: i8) -> SgubFrequency
    ensures { result ≡ frequency_on (frequency_of note semitones) }
{
    sgub_pitch::frequency_of(pitch_frequency::frequency(note, semitones))
}
