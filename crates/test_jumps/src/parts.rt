// The bytes that a script lends: two files and their indexes, which are the parts 0 to 3 of a buffer. A part has 4,096 bytes, with zeros behind
// its own.
use std::io;
use std::io::Read;
use test_vectors::next_number;

const PART: usize = 4096;

// The lengths of the files and of their indexes, and the number of steps.
#[derive(Clone, Copy)]
pub(crate) struct Lengths {
    pub(crate) file: u32,
    pub(crate) other: u32,
    pub(crate) index: u32,
    pub(crate) other_index: u32,
    pub(crate) steps: u32,
}

// What comes behind the first length.
pub(crate) fn read_lengths<R: Read>(input: &mut R, file: u32) -> io::Result<Lengths> {
    let mut bytes = [0u8; 4];
    let other = next_number(input, &mut bytes)?;
    let index = next_number(input, &mut bytes)?;
    let other_index = next_number(input, &mut bytes)?;
    let steps = next_number(input, &mut bytes)?;
    Ok(Lengths {
        file,
        other,
        index,
        other_index,
        steps,
    })
}

// Reads one part; false where it is too long, or not all of it is left.
fn read_part<R: Read>(input: &mut R, buffer: &mut [u8], part: u8, length: u32) -> io::Result<bool> {
    let at = part as usize * PART;
    let end = at + PART;
    if buffer.len() < end {
        return Ok(false);
    }
    test_vectors::read_front(input, &mut buffer[at..end], length as usize)
}

// Reads the four parts.
pub(crate) fn read_parts<R: Read>(
    input: &mut R,
    buffer: &mut [u8],
    lengths: Lengths,
) -> io::Result<bool> {
    Ok(
        read_part(input, buffer, 0, lengths.file)?
            && read_part(input, buffer, 1, lengths.other)?
            && read_part(input, buffer, 2, lengths.index)?
            && read_part(input, buffer, 3, lengths.other_index)?,
    )
}

// Where a place of a part stands in the buffer; behind its end for none.
pub(crate) fn place_in(part: u8, place: u16) -> usize {
    part as usize * PART + place as usize
}

// So many bytes from the start of a part; the whole buffer where there are fewer.
pub(crate) fn lent(buffer: &[u8], part: u8, length: usize) -> &[u8] {
    let at = part as usize * PART;
    if buffer.len() < at || buffer.len() - at < length {
        return buffer;
    }
    &buffer[at..at + length]
}
