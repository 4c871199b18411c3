// Replays stored masters and their repackings: data/repacks.bin has, for each, the master's length and bytes, the room that is lent,
// the refusal's number and place, and the result's length and bytes. Numbers have four bytes. rust/README.md says how it is made.
#![tactic(auto)]

use repack::compile_song_v2;
use std::fs::File;
use std::io;
use test_vectors::{replay_list, replay_made};

fn main(rt: HostRuntime) -> io::Result<()> {
    let mut input = File::open(&rt, "repacks.bin")?;
    let counts = replay_list(&mut input, |input, length| {
        replay_made(rt.alloc(), input, length, |master, lent| {
            compile_song_v2(master, lent)
        })
    })?;
    println!(rt; "{counts}")
}
