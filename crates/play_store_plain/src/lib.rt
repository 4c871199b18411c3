// The lent run: the writes of successive plain WRITEs, stored straight from the file.
#![tactic(auto)]

ghost use Rattle.std.specs.Prelude.{◌≡◌, ◌+◌, ◌*◌, ◌≤◌, length};
ghost use Rattle.play_fast_plain.specs.Plain.{plain_size, plain_write};
ghost use Rattle.base_format.specs.Size.{operation_most};
ghost use Rattle.play_store_plain.specs.Stored.{storable, writes_stored};

use base_format::{OPERATION_MOST, WriteRecord};
use bytes_operation::{address_in, address_width, decode_record, target_in};
use bytes_operation_known::write_value_in;
use bytes_read::window;
use play_fast_plain::plain_size;

// How many of the writes are stored: all of them if they fit into the run, and their WRITEs into the file with 16 bytes from the
// last one on, and else none.
fn storable(room: usize, size: usize, version: u8, from: usize, count: u32) -> usize
    ensures { result ≡ storable room size version from count }
{
    if room < count as usize {
        return 0;
    }
    let step = plain_size(version);
    if size < from {
        return 0;
    }
    if size - from < count as usize * step + OPERATION_MOST - step {
        return 0;
    }
    count as usize
}

// The write of a plain WRITE, by its index from a place on.
fn nth_write(file: &[u8], version: u8, from: usize, index: usize) -> WriteRecord
    requires { from + index * plain_size version + operation_most ≤ length file.now }
    ensures { result ≡ plain_write version file.now (from + index * plain_size version) }
{
    let bytes = window(file, from + index * plain_size(version));
    if version == 1 {
        let record = decode_record(bytes);
        return WriteRecord {
            target: record.target,
            address: record.address,
            value: record.value,
        };
    }
    let width = address_width(version);
    WriteRecord {
        target: target_in(bytes),
        address: address_in(bytes, width),
        value: write_value_in(bytes, width),
    }
}

// The writes stand at the run's front where all of them fit; no other record is touched.
// It is a function of its own for LLVM too, which then puts its loop on a boundary.
#[inline(never)]
pub fn store_writes(run: &mut [WriteRecord], file: &[u8], version: u8, from: usize, count: u32)
    ensures { run.new ≡ writes_stored file.now version from count run.old }
{
    let stop = storable(run.len(), file.len(), version, from, count);
    for i in 0..stop {
        run[i] = nth_write(file, version, from, i);
    }
}
