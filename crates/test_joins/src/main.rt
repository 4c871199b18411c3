// Replays stored pairs of files and their joinings: data/joins.bin has, for each, the lengths of both files, how many bytes of each are
// stored (those behind are 0), these bytes, the room that is lent, the file that is refused, the refusal's number and place, and the
// result's length and bytes. Numbers have four bytes. rust/README.md says how it is made.
#![tactic(auto)]

use bytes_read::read_u32;
use join::{JoinError, join};
use std::alloc::Global;
use std::fs::File;
use std::io;
use std::io::Read;
use test_vectors::{Counts, Lent, StoredAnswer, front, next_number, read_front, replay_list};

// What a file of the list has at most: 65,536 pools take so many bytes.
const FILE_MOST: usize = 557115;

// The file that is refused, which is 0 for none and for the join of both, and the answer.
fn told(joined: Result<usize, JoinError>) -> (u32, StoredAnswer) {
    match joined {
        Ok(size) => (0, StoredAnswer::from(Ok(size))),
        Err(JoinError::First(refusal)) => (1, StoredAnswer::from(Err(refusal))),
        Err(JoinError::Second(refusal)) => (2, StoredAnswer::from(Err(refusal))),
        Err(JoinError::Neither(refusal)) => (0, StoredAnswer::from(Err(refusal))),
    }
}

// Reads the answer of two files, joins them and compares. False also where no whole answer is left.
fn compare<R: Read>(alloc: Global, input: &mut R, first: &[u8], second: &[u8]) -> io::Result<bool> {
    let mut head = [0u8; 20];
    if !read_front(input, &mut head, 20)? {
        return Ok(false);
    }
    let stored = (read_u32(&head, 4), StoredAnswer::read(&head[8..]));
    let size = stored.1.value;
    match Lent::read(alloc, input, read_u32(&head, 0) as usize, size, size)? {
        None => Ok(false),
        Some(mut lent) => {
            let answer = told(join(first, second, &mut lent.bytes));
            Ok((answer == stored) & lent.is_made())
        }
    }
}

// Reads a pair of files, and compares. Not as stored also where no whole pair is left.
fn replay<R: Read>(alloc: Global, input: &mut R, length: u32) -> io::Result<Counts> {
    let mut bytes = [0u8; 4];
    let length = length as usize;
    let second_length = next_number(input, &mut bytes)? as usize;
    let stored = next_number(input, &mut bytes)? as usize;
    let second_stored = next_number(input, &mut bytes)? as usize;
    let mut first = vec![in alloc; 0; FILE_MOST]?;
    let mut second = vec![in alloc; 0; FILE_MOST]?;
    if !read_front(input, &mut first, stored)? {
        return Ok(Counts::from(false));
    }
    if !read_front(input, &mut second, second_stored)? {
        return Ok(Counts::from(false));
    }
    let same = compare(
        alloc,
        input,
        front(&first, length),
        front(&second, second_length),
    )?;
    Ok(Counts::from(same))
}

fn main(rt: HostRuntime) -> io::Result<()> {
    let mut input = File::open(&rt, "joins.bin")?;
    let counts = replay_list(
        &mut input,
        |input, length| replay(rt.alloc(), input, length),
    )?;
    println!(rt; "{counts}")
}
