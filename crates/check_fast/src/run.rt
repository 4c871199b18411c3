// So many items in a row, as far as each is passed.
ghost use Rattle.std.specs.Prelude.{◌≡◌, false, ◌+◌, ◌≤◌, length};
ghost use Rattle.base_format.specs.Size.{operation_most};
ghost use Rattle.check_fast.specs.Run.{records_run, operations_from, quick_run};

use crate::item::{quick_operation, quick_record};
use base_format::OPERATION_MOST;
use bytes_operation::{address_width, decode_record, target_in};
use bytes_read::window;
use check_fast_limits::LimitTable;

// Where a run of items stops, how many items are left there, and whether one before has target 11.
#[derive(Clone, Copy)]
pub struct QuickRun {
    pub at: usize,
    pub left: u32,
    pub si22: bool,
}

// The records of version 1 that stand at places up to `last`, where the bytes are that hold every item. No record that is passed has
// target 11.
// It is a function of its own for LLVM too, whose loop then has short jumps to its end.
#[inline(never)]
fn records_run(file: &[u8], table: &LimitTable, last: usize, count: u32, start: usize) -> QuickRun
    requires { last + operation_most ≤ length file.now }
    ensures { result ≡ records_run file.now table.now last count start }
{
    let mut at = start;
    for i in 0..count {
        if last < at {
            return QuickRun {
                at,
                left: count - i,
                si22: false,
            };
        }
        let item = decode_record(window(file, at));
        let quick = quick_record(table, item);
        if !quick {
            return QuickRun {
                at,
                left: count - i,
                si22: false,
            };
        }
        at += item.size;
    }
    QuickRun {
        at,
        left: 0,
        si22: false,
    }
}

// The operations of a pooled file that stand at places up to `last`.
fn operations_run(
    file: &[u8],
    width: usize,
    pools: u32,
    directory: u32,
    table: &LimitTable,
    last: usize,
    count: u32,
    start: usize,
) -> QuickRun
    requires { (3 ≤ width) × (width ≤ 4) × (last + operation_most ≤ length file.now) }
    ensures { result ≡ operations_from width file.now pools directory table.now last count start false }
{
    let mut at = start;
    let mut si22 = false;
    for i in 0..count {
        if last < at {
            return QuickRun {
                at,
                left: count - i,
                si22,
            };
        }
        let bytes = window(file, at);
        let quick = quick_operation(file, bytes, width, pools, directory, table);
        if !quick.passed {
            return QuickRun {
                at,
                left: count - i,
                si22,
            };
        }
        si22 |= target_in(bytes) == 11;
        at += quick.size;
    }
    QuickRun { at, left: 0, si22 }
}

// So many items of a file from a place, up to a limit. What lies behind the last place with 16 bytes is not passed.
#[tactic(auto, unfolding(crate::specs::Run::quick_run))]
pub fn quick_run(
    file: &[u8],
    version: u8,
    pools: u32,
    directory: u32,
    table: &LimitTable,
    limit: usize,
    count: u32,
    start: usize,
) -> QuickRun
    ensures { result ≡ quick_run version file.now pools directory table.now limit count start }
{
    let end = limit.min(file.len());
    if end < OPERATION_MOST {
        return QuickRun {
            at: start,
            left: count,
            si22: false,
        };
    }
    let last = end - OPERATION_MOST;
    if version == 1 {
        return records_run(file, table, last, count, start);
    }
    operations_run(
        file,
        address_width(version),
        pools,
        directory,
        table,
        last,
        count,
        start,
    )
}
