// Memory that a call fills, and what it is to hold then.

ghost use Rattle.std.specs.Prelude.{◌≡◌, ◌≤◌, ◌<◌, ◌↔◌, drop, length, replicate, IfOk, IfSome, IsTrue};
ghost use Rattle.test_vectors.specs.Made.{Makes, MadeOf};

use crate::{Counts, StoredAnswer, front, read_front};
use base_format::Refusal;
use bytes_read::read_u32;
use std::alloc::{AllocError, Global};
use std::io;
use std::io::Read;

// No list lends more bytes.
const LENT_MOST: usize = 65536;

// Lent bytes, and what they are expected to be behind the call.
#[derive(Drop)]
pub struct Lent {
    pub bytes: Vec<u8>,
    pub expected: Vec<u8>,
}

// The bytes before a call.
fn memory(alloc: Global, room: usize) -> Result<Vec<u8>, AllocError>
    ensures { IfOk result (λ bytes. bytes.items ≡ replicate room 0xA5) }
{
    vec![in alloc; 0xA5; room]
}

// Whether two memories are the same from a place on.
fn same_behind(a: &[u8], b: &[u8], at: usize) -> bool
    requires { (at ≤ length a.now) × (at ≤ length b.now) }
    ensures { IsTrue result → drop at a.now ≡ drop at b.now }
{
    a[at..] == b[at..]
}

// So much room for a call. None where there are not so many bytes, or where others are expected behind those that the call makes.
fn lend(
    alloc: Global,
    expected: Vec<u8>,
    room: usize,
    made: usize,
) -> Result<Option<Lent>, AllocError>
    ensures { IfOk result (λ read. IfSome read (λ lent. (lent.bytes.items ≡ replicate room 0xA5) × (drop made lent.expected.items ≡ drop made (replicate room 0xA5)))) }
{
    let bytes = memory(alloc, expected.len())?;
    if expected.len() < room || room < made {
        return Ok(None);
    }
    if !same_behind(&expected, &bytes, made) {
        return Ok(None);
    }
    let mut lent = Lent { bytes, expected };
    lent.bytes.truncate(room);
    lent.expected.truncate(room);
    Ok(Some(lent))
}

impl Lent {
    // So much room for a call. Of the bytes that are expected behind it the list has the first ones, so many; behind those that the call
    // makes they are as they were lent. None where the room is larger than any of a list, or the bytes are not there or are others.
    pub fn read<R: Read>(
        alloc: Global,
        input: &mut R,
        room: usize,
        size: usize,
        made: usize,
    ) -> io::Result<Option<Lent>>
        ensures { IfOk result (λ read. IfSome read (λ lent. (lent.bytes.items ≡ replicate room 0xA5) × (drop made lent.expected.items ≡ drop made (replicate room 0xA5)))) }
    {
        let mut expected = memory(alloc, LENT_MOST)?;
        if !read_front(input, &mut expected, size)? {
            return Ok(None);
        }
        Ok(lend(alloc, expected, room, made)?)
    }

    // Whether the bytes are as expected.
    pub fn is_made(&self) -> bool
        ensures { IsTrue result ↔ (self.now.bytes.items ≡ self.now.expected.items) }
    {
        self.bytes == self.expected
    }
}

// Whether a call answers as stored and makes of a file what is expected.
fn makes<F: FnOnce(&[u8], &mut [u8]) -> Result<usize, Refusal>>(
    file: &[u8],
    stored: StoredAnswer,
    mut lent: Lent,
    make: F,
) -> bool
    requires { F.IsAlwaysCallable make }
    ensures { IsTrue result → Makes F.FnOnce make lent.bytes.items stored lent.expected.items }
{
    let answer = StoredAnswer::from(make(file, &mut lent.bytes));
    (answer == stored) & lent.is_made()
}

// Replays a call that makes something of a file: the list has the file, the room that is lent, the call's answer and what it makes. No file
// of a list is longer than 65,536 bytes.
pub fn replay_made<R: Read, F: FnOnce(&[u8], &mut [u8]) -> Result<usize, Refusal>>(
    alloc: Global,
    input: &mut R,
    length: u32,
    make: F,
) -> io::Result<Counts>
    requires { F.IsAlwaysCallable make }
    ensures { IfOk result (λ counts. 0 < counts.same → MadeOf F.FnOnce make) }
{
    let mut file = vec![in alloc; 0; 65536]?;
    let mut head = [0u8; 16];
    if !read_front(input, &mut file, length as usize)? {
        return Ok(Counts::from(false));
    }
    if !read_front(input, &mut head, 16)? {
        return Ok(Counts::from(false));
    }
    let stored = StoredAnswer::read(&head[4..]);
    let meant = stored.meant();
    match Lent::read(
        alloc,
        input,
        read_u32(&head, 0) as usize,
        stored.value,
        meant.value,
    )? {
        None => Ok(Counts::from(false)),
        Some(lent) => Ok(Counts::from(makes(front(&file, length as usize), meant, lent, make))),
    }
}
