// Whether a wave starts at a place of a master: 256 records to one core at consecutive addresses.
#![tactic(auto)]

ghost use Rattle.std.specs.Prelude.{◌≡◌, ◌+◌, ◌*◌, ◌≤◌, ◌<◌, length};
ghost use Rattle.base_format.specs.Repack.{runs, starts_wave};
ghost use Rattle.base_format.specs.Size.{record_size, wave_records_size};
ghost use Rattle.base_master.specs.Places.{records_at};

use base_format::{RECORD_SIZE, WAVE_RECORDS_SIZE, WAVE_SIZE};
use bytes_operation_size::read_address;

// Whether 256 records go to one target at consecutive addresses. Target and address of a record are compared as one number.
fn runs_on(records: &[u8], target: u8, address: u32) -> bool
    requires { (length records.now ≡ wave_records_size) × (target < 2) × (address < 0x800) }
    ensures { result ≡ runs 256 target address (records_at records.now 256 0) }
{
    let mut place: usize = 0;
    let mut head = target as u32 * 0x1000000 + address;
    for _i in 0..WAVE_SIZE {
        let record_target = records[place];
        let record_address = read_address(records, 3, place + 1);
        if record_target as u32 * 0x1000000 + record_address != head {
            return false;
        }
        place += RECORD_SIZE;
        head += 1;
    }
    true
}

// Whether a wave starts at a place with so many records of its frame left.
pub fn starts_wave(file: &[u8], at: usize, left: usize) -> bool
    requires { at + left * record_size ≤ length file.now }
    ensures { result ≡ starts_wave (records_at file.now left at) }
{
    if left < WAVE_SIZE {
        return false;
    }
    let target = file[at];
    if 2 <= target {
        return false;
    }
    let address = read_address(file, 3, at + 1);
    if 0x800 <= address {
        return false;
    }
    if address % 256 != 0 {
        return false;
    }
    runs_on(&file[at..at + WAVE_RECORDS_SIZE], target, address)
}
