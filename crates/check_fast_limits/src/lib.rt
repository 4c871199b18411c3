// The limits of every target number of a file, in one array: what an item is compared with.
#![tactic(auto)]

ghost use Rattle.std.specs.Prelude.{◌≡◌, ◌<◌};
ghost use Rattle.base_format.specs.Card.{cards_of};
ghost use Rattle.check_fast_limits.specs.Limits.{write_end, bulk_end, limit_table, limits_at};

use base_format::{CardTable, Target};
use check_target::find_target;

// The target numbers run from 0 to 11.
pub const TARGETS: usize = 12;

// The limits of a target number: the end of WRITE, the start and the end of FILL and COPY, and the kind of pool that a COPY takes. The
// ends are those of the crate's specs; a missing target has 0.
#[derive(Clone, Copy)]
pub struct TargetLimits {
    pub write_end: u64,
    pub bulk_start: u64,
    pub bulk_end: u64,
    pub kind: u64,
}

// A column for each of the four numbers of TargetLimits, in its order, lent to the loops. In a column a target's number is at its place
// without a product, which an array of rows needs for each item; a table of structs by value would be copied where it is indexed.
pub type LimitTable = [[u64; TARGETS]; 4];

// The address behind the last one of a WRITE; 0 for a missing target.
#[tactic(auto, unfolding(crate::specs::Limits::write_end), using(crate::proofs::Tabled::write_limit_range))]
fn write_end(target: Target) -> u32
    ensures { result ≡ write_end target }
{
    if target.missing() {
        0
    } else {
        target.write_limit() + 1
    }
}

// One more than the end of the range of FILL and COPY; 0 for a missing target.
#[tactic(auto, unfolding(crate::specs::Limits::bulk_end))]
pub fn bulk_end(target: Target) -> u64
    ensures { result ≡ bulk_end target }
{
    if target.missing() {
        0
    } else {
        target.bulk_start() as u64 + target.bulk_length() as u64 + 1
    }
}

// The table of a version with its cards.
#[tactic(auto, unfolding(crate::specs::Limits::limit_table), using(crate::proofs::Tabled::filled_all))]
pub fn limit_table(version: u8, cards: CardTable) -> LimitTable
    ensures { result ≡ limit_table version (cards_of cards) }
{
    let mut write_ends = [0; TARGETS];
    let mut bulk_starts = [0; TARGETS];
    let mut bulk_ends = [0; TARGETS];
    let mut kinds = [0; TARGETS];
    for number in 0..TARGETS {
        let target = find_target(number as u8, version, cards);
        write_ends[number] = write_end(target) as u64;
        bulk_starts[number] = target.bulk_start() as u64;
        bulk_ends[number] = bulk_end(target);
        kinds[number] = target.kind() as u64;
    }
    [write_ends, bulk_starts, bulk_ends, kinds]
}

// The limits of a target number.
pub fn limits_at(table: &LimitTable, number: usize) -> TargetLimits
    requires { number < 12 }
    ensures { result ≡ limits_at table.now number }
{
    TargetLimits {
        write_end: table[0][number],
        bulk_start: table[1][number],
        bulk_end: table[2][number],
        kind: table[3][number],
    }
}
