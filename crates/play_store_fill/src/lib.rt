// The lent run: the records of successive WRITEs and FILLs, stored straight from the file.
#![tactic(auto)]

ghost use Rattle.std.specs.Prelude.{◌≡◌};
ghost use Rattle.play_store_fill.specs.Stored.{fills_stored};

use base_format::WriteRecord;
use play_fast_fill_records::{fill_place, next_fill};

// So many records stand at the run's front, or as many as it holds; no other record is touched. The first ones are those of the
// operation at a place, of which so many are made.
pub fn store_fills(
    run: &mut [WriteRecord],
    file: &[u8],
    version: u8,
    from: usize,
    made: u32,
    count: usize,
)
    ensures { run.new ≡ fills_stored file.now version from made count run.old }
{
    let mut place = fill_place(from, made);
    for i in 0..count.min(run.len()) {
        place = next_fill(file, version, place);
        run[i] = WriteRecord {
            target: place.target,
            address: place.address,
            value: place.value,
        };
    }
}
