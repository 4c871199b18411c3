// Writes a joined file, part by part, into a buffer that holds it: header and directories anew, payloads and the first file's operations
// as runs of the files as they are, then the second file's frames.
#![tactic(auto)]

ghost use Rattle.std.specs.Prelude.{◌≡◌, ◌+◌, ◌*◌, length};
ghost use Rattle.base_format.specs.Size.{pooled_header_size, entry_size};
ghost use Rattle.base_format.specs.Written.{written};
ghost use Rattle.bytes_read.specs.Put.{put};
ghost use Rattle.join_stream.specs.Join.{joined, stream_in};
ghost use Rattle.join_put_file.specs.File.{HeadersFit, BothFit, joined_header, tables_of, runs_of};

use base_format::{ENTRY_SIZE, Header, POOLED_HEADER_SIZE};
use bytes_copy::copy_part;
use bytes_put_header::put_header;
use join_put_directory::put_entries;
use join_put_second::put_second;

// The header of a joined file.
fn new_header(first: Header, second: Header) -> Header
    requires { HeadersFit first second }
    ensures { result ≡ joined_header first second }
{
    let size = POOLED_HEADER_SIZE as u32;
    let moved = second.initial_start - size;
    Header {
        version: 2,
        repeat: second.repeat,
        frame_period: 0,
        card_count: 0,
        frame_count: first.frame_count + second.frame_count,
        pool_count: first.pool_count + second.pool_count,
        initial_count: first.initial_count,
        directory_offset: size,
        initial_start: first.initial_start + moved,
        frame_start: first.frame_start + moved as usize,
        total_size: first.total_size + (second.total_size - size),
    }
}

// The header and both directories.
fn put_tables(first: &[u8], header: Header, second: &[u8], second_header: Header, buffer: &mut [u8])
    requires { BothFit first.now header second.now second_header (length buffer.old) }
    ensures { buffer.new ≡ put (tables_of first.now header second.now second_header) 0 buffer.old }
{
    let size = POOLED_HEADER_SIZE as u32;
    let pools = header.pool_count;
    let second_pools = second_header.pool_count;
    let opening = header.initial_start;
    let behind = POOLED_HEADER_SIZE + pools as usize * ENTRY_SIZE;
    put_header(buffer, new_header(header, second_header));
    put_entries(
        first,
        pools,
        buffer,
        POOLED_HEADER_SIZE,
        0,
        second_pools * ENTRY_SIZE as u32,
    );
    put_entries(second, second_pools, buffer, behind, pools, opening - size);
}

// Both files' payloads, and the first file's opening and frames.
fn put_runs(first: &[u8], header: Header, second: &[u8], second_header: Header, buffer: &mut [u8])
    requires { BothFit first.now header second.now second_header (length buffer.old) }
    ensures { buffer.new ≡ put (runs_of first.now header second.now second_header)
        (pooled_header_size + (header.pool_count + second_header.pool_count) * entry_size) buffer.old }
{
    let directory = header.pool_count as usize * ENTRY_SIZE;
    let second_directory = second_header.pool_count as usize * ENTRY_SIZE;
    let from = POOLED_HEADER_SIZE + directory;
    let second_from = POOLED_HEADER_SIZE + second_directory;
    let opening = header.initial_start as usize;
    let second_opening = second_header.initial_start as usize;
    copy_part(first, from, opening - from, buffer, from + second_directory);
    copy_part(
        second,
        second_from,
        second_opening - second_from,
        buffer,
        opening + second_directory,
    );
    copy_part(
        first,
        opening,
        first.len() - opening,
        buffer,
        opening + (second_opening - POOLED_HEADER_SIZE),
    );
}

// The whole file.
pub fn write_joined(
    first: &[u8],
    header: Header,
    second: &[u8],
    second_header: Header,
    buffer: &mut [u8],
)
    requires { BothFit first.now header second.now second_header (length buffer.old) }
    ensures { buffer.new ≡ put (written (joined (stream_in first.now) (stream_in second.now))) 0 buffer.old }
{
    put_tables(first, header, second, second_header, buffer);
    put_runs(first, header, second, second_header, buffer);
    put_second(
        second,
        second_header,
        header.pool_count,
        buffer,
        first.len() - POOLED_HEADER_SIZE,
    );
}
