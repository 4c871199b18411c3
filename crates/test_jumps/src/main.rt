// Replays stored scripts of vsync calls and jumps: data/jumps.bin has, for each, the lengths of two files and of their indexes and the number
// of steps, each of four bytes, then the files and the indexes, and 32 bytes for each step. rust/README.md says how it is made.
#![tactic(auto)]

mod parts;
mod step;
mod told;

use crate::parts::{lent, read_lengths, read_parts};
use play_start::start;
use std::fs::File;
use std::io;
use std::io::Read;
use test_vectors::{Counts, replay_list, replay_steps};

// Replays a script: files and indexes are read, a player is started with the first file, and the steps are replayed, one after the other.
fn replay<R: Read>(input: &mut R, length: u32) -> io::Result<Counts> {
    let lengths = read_lengths(input, length)?;
    let mut buffer = [0u8; 16384];
    if !read_parts(input, &mut buffer, lengths)? {
        return Ok(Counts {
            same: 0,
            different: lengths.steps as u64,
        });
    }
    let mut state = start(lent(&buffer, 0, lengths.file as usize)).state;
    let mut stored = [0u8; 32];
    replay_steps(input, &mut stored, lengths.steps, |stored| {
        step::replay(&mut buffer, &mut state, stored)
    })
}

fn main(rt: HostRuntime) -> io::Result<()> {
    let mut input = File::open(&rt, "jumps.bin")?;
    let counts = replay_list(&mut input, replay)?;
    println!(rt; "{counts}")
}
