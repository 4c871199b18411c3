// Replays stored vsync calls: data/plays.bin has, for each script, the length of a file and the number of calls, each of four bytes,
// the file, and 16 bytes for each call. rust/README.md says how it is made.
#![tactic(auto)]

mod call;

use play_start::start;
use std::fs::File;
use std::io;
use std::io::Read;
use test_vectors::{Counts, front, next_number, read_front, replay_list, replay_steps};

// Replays a script: its file is read, a player is started, and its calls are replayed, one after the other. No file of the list is longer
// than 4,096 bytes.
fn replay<R: Read>(input: &mut R, length: u32) -> io::Result<Counts> {
    let mut bytes = [0u8; 4];
    let calls = next_number(input, &mut bytes)?;
    let mut buffer = [0u8; 4096];
    if !read_front(input, &mut buffer, length as usize)? {
        return Ok(Counts {
            same: 0,
            different: calls as u64,
        });
    }
    let mut state = start(front(&buffer, length as usize)).state;
    let mut stored = [0u8; 16];
    replay_steps(input, &mut stored, calls, |stored| {
        call::replay(&mut buffer, &mut state, stored)
    })
}

fn main(rt: HostRuntime) -> io::Result<()> {
    let mut input = File::open(&rt, "plays.bin")?;
    let counts = replay_list(&mut input, replay)?;
    println!(rt; "{counts}")
}
