// Replays stored files and their answers: data/verdicts.bin has, for each file, its length, its bytes and five numbers, each of
// four bytes: the refusal's number and place, and version, frames and opening of an accepted file. rust/README.md says how it is made.
#![tactic(auto)]

use base_format::Refusal;
use bytes_read::read_u32;
use check_file::{Recorded, check_file};
use std::fs::File;
use std::io;
use std::io::Read;
use test_vectors::{Counts, front, read_front, replay_list};

// A file's answer as the five numbers.
#[derive(Clone, Copy, PartialEq, Eq)]
struct Answer {
    number: u32,
    place: usize,
    version: u32,
    frames: u32,
    opening: u32,
}

impl Answer {
    fn read(stored: &[u8]) -> Answer {
        Answer {
            number: read_u32(stored, 0),
            place: read_u32(stored, 4) as usize,
            version: read_u32(stored, 8),
            frames: read_u32(stored, 12),
            opening: read_u32(stored, 16),
        }
    }
}

impl From<Result<Recorded, Refusal>> for Answer {
    fn from(checked: Result<Recorded, Refusal>) -> Answer {
        match checked {
            Ok(recorded) => Answer {
                number: 0,
                place: 0,
                version: recorded.header.version as u32,
                frames: recorded.header.frame_count,
                opening: recorded.header.initial_count,
            },
            Err(refusal) => Answer {
                number: u32::from(refusal.rule),
                place: refusal.place,
                version: 0,
                frames: 0,
                opening: 0,
            },
        }
    }
}

// Reads a file with its answer and compares. Not as stored also where no whole one is left. No file of the list is longer than 4,096 bytes.
fn replay<R: Read>(input: &mut R, length: u32) -> io::Result<Counts> {
    let mut file = [0u8; 4096];
    let mut stored = [0u8; 20];
    if !read_front(input, &mut file, length as usize)? {
        return Ok(Counts::from(false));
    }
    if !read_front(input, &mut stored, 20)? {
        return Ok(Counts::from(false));
    }
    let answer = Answer::from(check_file(front(&file, length as usize)));
    Ok(Counts::from(answer == Answer::read(&stored)))
}

fn main(rt: HostRuntime) -> io::Result<()> {
    let mut input = File::open(&rt, "verdicts.bin")?;
    let counts = replay_list(&mut input, replay)?;
    println!(rt; "{counts}")
}
