// The operations that a master's records become: a WRITE for a record, a COPY for the records of a wave. A repacked file has version 2, so
// that its addresses have 3 bytes.
#![tactic(auto)]

ghost use Rattle.std.specs.Prelude.{◌≡◌, ◌+◌, ◌≤◌, length};
ghost use Rattle.base_format.specs.declared.operation.Operation.TheVariants.{Copy};
ghost use Rattle.base_format.specs.Bytes.{byte, be};
ghost use Rattle.base_format.specs.Operation.{size_of};
ghost use Rattle.base_format.specs.Written.{item_bytes};
ghost use Rattle.bytes_read.specs.Put.{put};
ghost use Rattle.base_master.specs.Places.{record_of};

use base_format::{RECORD_SIZE, WAVE_SIZE};
use bytes_operation::{Decoded, decode_record};
use bytes_put_operation::{put_copy, put_write};

// The width of addresses in a repacked file.
pub const WIDTH: usize = 3;

// The numbers of a record of the master.
pub fn record_at(file: &[u8], from: usize) -> Decoded
    requires { from + 5 ≤ length file.now }
    ensures { (result.target ≡ byte file.now from) × (result.address ≡ be 3 file.now (from + 1)) × (result.value ≡ byte file.now (from + 4)) }
{
    decode_record(&file[from..from + RECORD_SIZE])
}

// A record as a WRITE.
pub fn put_record(file: &[u8], from: usize, buffer: &mut [u8], at: usize)
    requires { (from + 5 ≤ length file.now) × (at + size_of 3 0 ≤ length buffer.old) }
    ensures { buffer.new ≡ put (item_bytes 2 (record_of file.now from)) at buffer.old }
{
    let record = record_at(file, from);
    put_write(
        buffer,
        at,
        WIDTH,
        record.target,
        record.address,
        record.value,
    );
}

// The COPY of a wave from its pool, in place of its records.
pub fn put_wave_copy(file: &[u8], from: usize, pool: u16, buffer: &mut [u8], at: usize)
    requires { (from + 5 ≤ length file.now) × (at + size_of 3 2 ≤ length buffer.old) }
    ensures { buffer.new ≡ put (item_bytes 2 (Copy (byte file.now from) (be 3 file.now (from + 1)) pool 0 256)) at buffer.old }
{
    let record = record_at(file, from);
    put_copy(
        buffer,
        at,
        WIDTH,
        record.target,
        record.address,
        pool,
        0,
        WAVE_SIZE as u32,
    );
}
