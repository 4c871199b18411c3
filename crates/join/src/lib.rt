// Joining: two files of version 2 as one, in a lent buffer. The refusals in their order, then the result.
#![tactic(auto)]

ghost use Rattle.std.specs.Prelude.{◌≡◌};
ghost use Rattle.base_format.specs.Checked.{ok};
ghost use Rattle.base_format.specs.Rule.{number_of};
ghost use Rattle.check_version.specs.Answer.{version_header};
ghost use Rattle.join_stream.specs.Join.{join_refused, in_neither};
ghost use Rattle.join.specs.Answer.{joined_of, JoinedWith};

use base_format::{FILE_LIMIT, Header, POOLED_HEADER_SIZE, Refusal, Rule};
use bytes_read::read_u16;
use check_version::check_version;
use join_put_file::write_joined;
use std::error::Error;
use std::fmt;

// The operations that a frame has at most, and the pools that a file has at most.
const FRAME_MOST: usize = 65535;

const POOLS_MOST: usize = 65536;

// The refusal, of the first file, of the second, or of both together.
#[derive(Clone, Copy, Debug)]
pub enum JoinError {
    First(Refusal),
    Second(Refusal),
    Neither(Refusal),
}

impl fmt::Display for JoinError {
    fn fmt<W: fmt::Write>(&self, f: &mut fmt::Formatter<W>) -> fmt::Result {
        match self {
            JoinError::First(refusal) => write!(f, "the first file is {refusal}"),
            JoinError::Second(refusal) => write!(f, "the second file is {refusal}"),
            JoinError::Neither(refusal) => write!(f, "both files together are {refusal}"),
        }
    }
}

impl Error for JoinError {}

// A refusal of both files together.
fn refused(rule: Rule) -> Result<usize, JoinError>
    ensures { joined_of result ≡ join_refused in_neither (number_of rule) 0 }
{
    Err(JoinError::Neither(Refusal { rule, place: 0 }))
}

// Two accepted files of version 2. All numbers are known before anything is written.
fn join_accepted(
    first: &[u8],
    header: Header,
    second: &[u8],
    second_header: Header,
    buffer: &mut [u8],
) -> Result<usize, JoinError>
    requires { (version_header 2 first.now ≡ ok header) × (version_header 2 second.now ≡ ok second_header) }
    ensures { JoinedWith (joined_of result) first.now second.now buffer.old buffer.new }
{
    let frame = read_u16(second, second_header.frame_start) as usize;
    let operations = second_header.initial_count as usize + frame;
    let pools = header.pool_count as usize + second_header.pool_count as usize;
    if FRAME_MOST < operations {
        return refused(Rule::FrameOperations);
    }
    if POOLS_MOST < pools {
        return refused(Rule::PoolCount);
    }
    let size = first.len() + second.len() - POOLED_HEADER_SIZE;
    if (FILE_LIMIT as usize) < size {
        return refused(Rule::ResultSize);
    }
    if buffer.len() < size {
        return refused(Rule::LentSize);
    }
    write_joined(first, header, second, second_header, buffer);
    Ok(size)
}

// Two files as one: the length of the result, which stands at the buffer's start, or the refusal, with nothing written.
pub fn join(first: &[u8], second: &[u8], buffer: &mut [u8]) -> Result<usize, JoinError>
    ensures { JoinedWith (joined_of result) first.now second.now buffer.old buffer.new }
{
    let header = check_version(first, 2).map_err(JoinError::First)?;
    let second_header = check_version(second, 2).map_err(JoinError::Second)?;
    join_accepted(first, header, second, second_header, buffer)
}
