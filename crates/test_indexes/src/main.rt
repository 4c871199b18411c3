// Replays stored files and their indexes: data/indexes.bin has, for each, the file's length and bytes, the room that is lent, the refusal's
// number and place, and the index's length and bytes. Numbers have four bytes. rust/README.md says how it is made.
#![tactic(auto)]

use index_build::build_index;
use std::fs::File;
use std::io;
use test_vectors::{replay_list, replay_made};

fn main(rt: HostRuntime) -> io::Result<()> {
    let mut input = File::open(&rt, "indexes.bin")?;
    let counts = replay_list(&mut input, |input, length| {
        replay_made(rt.alloc(), input, length, build_index)
    })?;
    println!(rt; "{counts}")
}
