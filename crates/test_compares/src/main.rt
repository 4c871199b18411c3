// Replays stored comparisons: data/compares.bin has, for each, the lengths of a master and of another file, the two files, and 32 bytes
// of rooms and answers, numbers of four bytes: the rooms of the two images, then the file that is refused, number, place, passed or not, and
// the numbers of the two lent memories after the call. rust/README.md says how it is made.
#![tactic(auto)]

use bytes_read::read_u32;
use compare::{CompareError, compare};
use std::alloc::Global;
use std::fs::File;
use std::io;
use std::io::Read;
use test_vectors::{BASIS, Counts, StoredAnswer, front, mix, next_number, read_front, replay_list};

// The file that is refused, 0 for none, and the answer, whose value is 1 for passed.
fn told(compared: Result<bool, CompareError>) -> (u32, StoredAnswer) {
    match compared {
        Ok(passed) => (0, StoredAnswer::from(Ok(passed as usize))),
        Err(CompareError::Master(refusal)) => (1, StoredAnswer::from(Err(refusal))),
        Err(CompareError::Other(refusal)) => (2, StoredAnswer::from(Err(refusal))),
    }
}

// The number of all lent bytes, those behind an image too.
fn mix_all(lent: &[u8]) -> u32 {
    let mut sum = BASIS;
    for byte in lent {
        sum = mix(sum, *byte as u32);
    }
    sum
}

// Compares two files with images of the stored rooms, and holds answer and images against what is stored.
fn is_same(
    master: &[u8],
    other: &[u8],
    stored: &[u8; 32],
    image: &mut [u8],
    other_image: &mut [u8],
) -> bool {
    let room = read_u32(stored, 0) as usize;
    let other_room = read_u32(stored, 4) as usize;
    if image.len() < room || other_image.len() < other_room {
        return false;
    }
    let compared = compare(
        master,
        other,
        &mut image[..room],
        &mut other_image[..other_room],
    );
    told(compared) == (read_u32(stored, 8), StoredAnswer::read(&stored[12..]))
        && mix_all(image) == read_u32(stored, 24)
        && mix_all(other_image) == read_u32(stored, 28)
}

// Reads a pair of files with its answer, and compares. Not as stored also where no whole pair is left. No file of the list is longer than
// 65,536 bytes.
fn replay<R: Read>(
    alloc: Global,
    input: &mut R,
    length: u32,
    image: &mut [u8],
    other_image: &mut [u8],
) -> io::Result<Counts> {
    let mut master = vec![in alloc; 0; 65536]?;
    let mut other = vec![in alloc; 0; 65536]?;
    let mut stored = [0u8; 32];
    let other_length = next_number(input, &mut [0u8; 4])?;
    if !read_front(input, &mut master, length as usize)? {
        return Ok(Counts::from(false));
    }
    if !read_front(input, &mut other, other_length as usize)? {
        return Ok(Counts::from(false));
    }
    if !read_front(input, &mut stored, 32)? {
        return Ok(Counts::from(false));
    }
    Ok(Counts::from(is_same(
        front(&master, length as usize),
        front(&other, other_length as usize),
        &stored,
        image,
        other_image,
    )))
}

// The memories to lend, an image and 16 bytes behind it, begin at 0 and stay lent, so that a refusal finds what the pair before it left.
fn main(rt: HostRuntime) -> io::Result<()> {
    let mut input = File::open(&rt, "compares.bin")?;
    let mut image = vec![in rt.alloc(); 0; 1048592]?;
    let mut other_image = vec![in rt.alloc(); 0; 1048592]?;
    let counts = replay_list(&mut input, |input, length| {
        replay(rt.alloc(), input, length, &mut image, &mut other_image)
    })?;
    println!(rt; "{counts}")
}
