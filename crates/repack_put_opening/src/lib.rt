// The opening: whether a master's PCM records are in order, and the opening of its repacked file: a FILL of the PCM memory that was
// not written, the core records, a COPY of the PCM bytes.
#![tactic(auto)]

ghost use Rattle.std.specs.Prelude.{◌≡◌, ◌+◌, ◌*◌, ◌≤◌, ◌<◌, length};
ghost use Rattle.bytes_read.specs.Put.{put};
ghost use Rattle.base_master.specs.Places.{records_at};
ghost use Rattle.base_master.specs.Result.{pcm_from, core_bytes};
ghost use Rattle.repack_put_opening.specs.Opening.{fill_part, copy_part, opening_part, pcm_in};
ghost use Rattle.base_format.specs.Size.{record_size, master_header_size};

use base_format::{MASTER_HEADER_SIZE, PCM_SIZE, RECORD_SIZE};
use bytes_operation_size::operation_size;
use bytes_put_operation::{put_copy, put_fill};
use repack_put_items::{WIDTH, put_record, record_at};

// How many PCM records an opening of so many records has, or `None` where their addresses do not run 0, 1, 2 and so on.
#[tactic(auto, using(crate::proofs::Opening::pcm_end, base_master::proofs::Result::pcm_wrong))]
pub fn pcm_run(file: &[u8], count: usize) -> Option<usize>
    requires { master_header_size + count * record_size ≤ length file.now }
    ensures { pcm_in result ≡ pcm_from 0 (records_at file.now count 20) }
{
    let mut pcm: usize = 0;
    for i in 0..count {
        let record = record_at(file, MASTER_HEADER_SIZE + i * RECORD_SIZE);
        if record.target == 2 {
            if record.address as usize != pcm {
                return None;
            }
            pcm += 1;
        }
    }
    Some(pcm)
}

// How many bytes the FILL takes.
#[tactic(auto, using(crate::proofs::Opening::no_fill, crate::proofs::Opening::full_fill, crate::proofs::Opening::fill_long))]
pub fn fill_size(pcm: usize) -> usize
    ensures { (result ≡ length (fill_part pcm)) × (result ≤ 16) }
{
    if pcm == 0 {
        return 0;
    }
    if pcm < PCM_SIZE {
        return operation_size(WIDTH, 1);
    }
    0
}

// How many bytes the COPY takes.
#[tactic(auto, using(crate::proofs::Opening::no_copy, crate::proofs::Opening::copy_long))]
pub fn copy_size(pcm: usize) -> usize
    ensures { (result ≡ length (copy_part pcm)) × (result ≤ 16) }
{
    if pcm == 0 {
        return 0;
    }
    operation_size(WIDTH, 2)
}

// The FILL of the rest of the PCM memory, if PCM was written and less than all of it.
#[tactic(auto, using(bytes_read::proofs::Sequence::put_none, bytes_put_operation::proofs::Operations::item_two, crate::proofs::Opening::no_fill, crate::proofs::Opening::full_fill, crate::proofs::Opening::some_fill, crate::proofs::Opening::fill_long))]
fn put_pcm_fill(buffer: &mut [u8], at: usize, pcm: usize)
    requires { at + length (fill_part pcm) ≤ length buffer.old }
    ensures { buffer.new ≡ put (fill_part pcm) at buffer.old }
{
    if pcm == 0 {
        return;
    }
    if PCM_SIZE <= pcm {
        return;
    }
    put_fill(
        buffer,
        at,
        WIDTH,
        2,
        pcm as u32,
        (PCM_SIZE - pcm) as u32,
        0x80,
    );
}

// The COPY of all PCM bytes, if PCM was written.
#[tactic(auto, using(bytes_read::proofs::Sequence::put_none, bytes_put_operation::proofs::Operations::item_two, crate::proofs::Opening::no_copy, crate::proofs::Opening::some_copy, crate::proofs::Opening::copy_long))]
fn put_pcm_copy(buffer: &mut [u8], at: usize, pcm: usize)
    requires { (at + length (copy_part pcm) ≤ length buffer.old) × (pcm < 4294967296) }
    ensures { buffer.new ≡ put (copy_part pcm) at buffer.old }
{
    if pcm == 0 {
        return;
    }
    put_copy(buffer, at, WIDTH, 2, 0, 0, 0, pcm as u32);
}

// The core records of an opening of so many records, as WRITEs.
fn put_cores(file: &[u8], count: usize, buffer: &mut [u8], at: usize) -> usize
    requires { (master_header_size + count * record_size ≤ length file.now) × (at + length (core_bytes file.now count master_header_size) ≤ length buffer.old) }
    ensures { (buffer.new ≡ put (core_bytes file.now count 20) at buffer.old) × (result ≡ at + length (core_bytes file.now count 20)) }
{
    let write = operation_size(WIDTH, 0);
    let mut place = at;
    for i in 0..count {
        let from = MASTER_HEADER_SIZE + i * RECORD_SIZE;
        if file[from] != 2 {
            put_record(file, from, buffer, place);
            place += write;
        }
    }
    place
}

// The opening.
pub fn put_opening(file: &[u8], count: usize, pcm: usize, buffer: &mut [u8], at: usize)
    requires { (master_header_size + count * record_size ≤ length file.now) × (at + length (opening_part file.now count pcm) ≤ length buffer.old) × (pcm < 4294967296) }
    ensures { buffer.new ≡ put (opening_part file.now count pcm) at buffer.old }
{
    let cores = at + fill_size(pcm);
    put_pcm_fill(buffer, at, pcm);
    let copy = put_cores(file, count, buffer, cores);
    put_pcm_copy(buffer, copy, pcm);
}
