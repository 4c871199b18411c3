// Replays stored pitches: data/pitches.bin has four bytes for each pair of a note and a shift: the note, the shift as a signed byte, and the
// pitch in two bytes, which is 0 where the pair is refused. 0xFFFFFFFF ends the list. rust/README.md says how it is made.
#![tactic(auto)]

use std::fs::File;
use std::io;
use test_vectors::{Counts, replay_list};

// The number of the refusal, and its place.
const NUMBER: u32 = 28;

const PLACE: usize = 0;

// Asks for a pair and compares; no pitch is 0.
fn replay(pair: u32) -> bool {
    let [note, shift, high, low] = pair.to_be_bytes();
    let stored = u16::from_be_bytes([high, low]);
    match pitch_frequency::frequency(note, shift.cast_signed()) {
        Ok(pitch) => pitch == stored,
        Err(refusal) => {
            (u32::from(refusal.rule) == NUMBER) & (refusal.place == PLACE) & (stored == 0)
        }
    }
}

fn main(rt: HostRuntime) -> io::Result<()> {
    let mut input = File::open(&rt, "pitches.bin")?;
    let counts = replay_list(&mut input, |_, pair| Ok(Counts::from(replay(pair))))?;
    println!(rt; "{counts}")
}
