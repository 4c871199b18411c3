// What the programs that replay stored answers share: they read a list from a file, compare each answer with the stored one, and print
// two counts.
#![tactic(auto)]

mod answer;
mod made;

ghost use Rattle.std.specs.Prelude.{◌≡◌, ◌+◌, ◌*◌, ◌%◌, ◌^◌, ◌<◌, not, take, drop, length, IfOk, OnErr, IsTrue};
ghost use Rattle.std.specs.Io.KnownBytes.{Consumes};
ghost use Rattle.std.specs.Int.{from_bool};
ghost use Rattle.base_format.specs.Bytes.{be};
ghost use Rattle.test_vectors.specs.Counts.{CountsWith};
ghost use Rattle.test_vectors.specs.Replays.{ReplaysAtMost, ReplaysSteps};
ghost use Rattle.test_vectors.specs.Front.{ReadFront};

pub use answer::StoredAnswer;
pub use made::{Lent, replay_made};
use std::io::{ErrorKind, Read};
use std::ops::AddAssign;
use std::{fmt, io};

// The number that ends a list.
pub const END: u32 = 0xFFFFFFFF;

// What a list has at most: nothing else says that a file ends.
const ENTRY_MOST: u32 = 100000;

// Where the number of a list of values begins.
pub const BASIS: u32 = 0x811C9DC5;

// How many answers were as stored, and how many were not.
#[derive(Clone, Copy, Default)]
pub struct Counts {
    pub same: u64,
    pub different: u64,
}

// The counts of an entry with one answer.
impl From<bool> for Counts {
    ghost from_gives = { λ same counts. (counts.same ≡ from_bool same) × (counts.different ≡ from_bool (not same)) };

    fn from(same: bool) -> Counts {
        Counts {
            same: same as u64,
            different: !same as u64,
        }
    }
}

// The counts behind an entry.
impl AddAssign<Counts> for Counts {
    ghost add_assign_gives = { λ counts entry behind. CountsWith counts entry behind };

    fn add_assign(&mut self, entry: Counts) {
        self.same = self.same.wrapping_add(entry.same);
        self.different = self.different.wrapping_add(entry.different);
    }
}

// The two counts, a line each.
impl fmt::Display for Counts {
    fn fmt<W: fmt::Write>(&self, f: &mut fmt::Formatter<W>) -> fmt::Result {
        write!(f, "same {}\ndifferent {}", self.same, self.different)
    }
}

// Replays a list: each entry by its number, until the list ends. What an entry has behind its number the closure reads itself.
pub fn replay_list<R: Read, F: FnMut(&mut R, u32) -> io::Result<Counts>>(
    input: &mut R,
    mut replay: F,
) -> io::Result<Counts>
    requires { F.IsAlwaysCallable replay }
    ensures { IfOk result (λ counts. ReplaysAtMost F.FnMut replay 100000 counts) }
{
    let mut bytes = [0u8; 4];
    let mut counts = Counts::default();
    for _entry in 0..ENTRY_MOST {
        let number = next_number(input, &mut bytes)?;
        if number == END {
            break;
        }
        let entry = replay(input, number)?;
        counts += entry;
    }
    Ok(counts)
}

// Replays so many steps of a script, each by its bytes, which the lent ones then hold. A step whose bytes are not there is not as stored.
pub fn replay_steps<R: Read, F: FnMut(&[u8]) -> bool>(
    input: &mut R,
    stored: &mut [u8],
    steps: u32,
    mut replay: F,
) -> io::Result<Counts>
    requires { F.IsAlwaysCallable replay }
    ensures { IfOk result (λ counts. ReplaysSteps F.FnMut replay steps counts) }
{
    let size = stored.len();
    let mut as_stored: u32 = 0;
    for _step in 0..steps {
        if !read_front(input, stored, size)? {
            break;
        }
        as_stored += replay(stored) as u32;
    }
    Ok(Counts {
        same: as_stored as u64,
        different: (steps - as_stored) as u64,
    })
}

// Reads so many bytes to the front of a buffer; false where it is too short, or so many are not left. Behind the front the buffer stays as it
// was, also where a read fails. Where true comes, the front has the next bytes of a reader that says which they are.
pub fn read_front<R: Read>(input: &mut R, buffer: &mut [u8], size: usize) -> io::Result<bool>
    ensures ok { IfOk result (λ whole. ReadFront size buffer.old buffer.new whole) }
    ensures bytes { IfOk result (λ whole. IsTrue whole → Consumes (R.remaining input.old) (R.remaining input.new) (take size buffer.new)) }
    ensures err { OnErr result ((length buffer.new ≡ length buffer.old) × (drop size buffer.new ≡ drop size buffer.old)) }
{
    if buffer.len() < size {
        return Ok(false);
    }
    match input.read_exact(&mut buffer[0..size]) {
        Ok(()) => Ok(true),
        Err(e) => {
            if e.kind() == ErrorKind::UnexpectedEof {
                Ok(false)
            } else {
                Err(e)
            }
        }
    }
}

// So many bytes from the front of a buffer; all of it where it is shorter.
pub fn front(buffer: &[u8], size: usize) -> &[u8]
    ensures { result.now ≡ take size buffer.now }
{
    &buffer[..size.min(buffer.len())]
}

// The next number of the input, which the lent bytes then hold; END where its four bytes are not there.
pub fn next_number<R: Read>(input: &mut R, bytes: &mut [u8; 4]) -> io::Result<u32>
    ensures { IfOk result (λ number. number ≡ be 4 bytes.new 0) }
{
    if !read_front(input, bytes, 4)? {
        bytes_read::put_u32(bytes, 0, END);
    }
    Ok(bytes_read::read_u32(bytes, 0))
}

// The number of a list of values with one more: 33 times the number and the value, of which the low 32 bits count.
pub fn mix(sum: u32, value: u32) -> u32
    ensures { result ≡ (sum * 33 + value) % 2 ^ 32 }
{
    sum.wrapping_mul(33).wrapping_add(value)
}
