// The quick tests of a record and of an operation: compared with the limits of its target. They only say yes.
ghost use Rattle.std.specs.Prelude.{◌≡◌, ◌≤◌};
ghost use Rattle.base_format.specs.Bytes.{byte};
ghost use Rattle.bytes_operation.specs.Decoded.{decoded_operation};
ghost use Rattle.check_fast.specs.Passes.{write_passes, fill_passes, copy_passes, record_passes, quick_operation};

use base_format::ENTRY_SIZE;
use bytes_operation::{Decoded, address_in, opcode_in, operation_size, target_in};
use bytes_operation_known::{copy_length_in, copy_pool_in, copy_source_in, fill_length_in};
use bytes_read::window;
use check_fast_limits::{LimitTable, TARGETS, TargetLimits, limits_at};
use check_fast_rules::{out_of_range, pool_fits};

// Whether an operation is passed, and its size. Both are there, so that the place behind it waits for no comparison.
#[derive(Clone, Copy)]
pub struct Quick {
    pub passed: bool,
    pub size: usize,
}

// Whether a record is passed.
#[tactic(auto, unfolding(crate::specs::Passes::record_passes, crate::specs::Passes::write_passes))]
pub fn quick_record(table: &LimitTable, item: Decoded) -> bool
    ensures { result ≡ record_passes table.now item }
{
    let target = item.target as usize;
    if TARGETS <= target {
        return false;
    }
    let limits = limits_at(table, target);
    (item.address as u64) < limits.write_end
}

#[tactic(auto, unfolding(crate::specs::Passes::write_passes))]
fn quick_write(bytes: &[u8], width: usize, limits: TargetLimits) -> bool
    requires { (3 ≤ width) × (width ≤ 4) }
    ensures { result ≡ write_passes limits (decoded_operation width bytes.now) }
{
    (address_in(bytes, width) as u64) < limits.write_end
}

#[tactic(auto, unfolding(crate::specs::Passes::fill_passes), using(bytes_operation_known::proofs::Laws::fill_length_lem))]
fn quick_fill(bytes: &[u8], width: usize, limits: TargetLimits) -> bool
    requires { (3 ≤ width) × (width ≤ 4) × (byte bytes.now 0 ≡ 1) }
    ensures { result ≡ fill_passes limits (decoded_operation width bytes.now) }
{
    let address = address_in(bytes, width);
    let length = fill_length_in(bytes, width);
    !out_of_range(address, length, limits.bulk_start, limits.bulk_end)
}

#[tactic(auto, unfolding(crate::specs::Passes::copy_passes), using(bytes_operation_known::proofs::Laws::copy_pool_lem, bytes_operation_known::proofs::Laws::copy_source_lem, bytes_operation_known::proofs::Laws::copy_length_lem))]
fn quick_copy(
    file: &[u8],
    bytes: &[u8],
    width: usize,
    pools: u32,
    directory: u32,
    limits: TargetLimits,
) -> bool
    requires { (3 ≤ width) × (width ≤ 4) × (byte bytes.now 0 ≡ 2) }
    ensures { result ≡ copy_passes file.now pools directory limits (decoded_operation width bytes.now) }
{
    let address = address_in(bytes, width);
    let id = copy_pool_in(bytes, width) as u32;
    let source = copy_source_in(bytes, width);
    let length = copy_length_in(bytes, width);
    if out_of_range(address, length, limits.bulk_start, limits.bulk_end) {
        return false;
    }
    if pools <= id {
        return false;
    }
    let at = directory as usize + id as usize * ENTRY_SIZE;
    if file.len() < at + ENTRY_SIZE {
        return false;
    }
    pool_fits(window(file, at), limits.kind, address, source, length)
}

// Whether an operation is passed. Each opcode has a way of its own that reads only its fields, and gives its size. Most operations are
// WRITEs: they are told first, and their limit is read apart, so that the compiler makes no choice of three of it.
#[tactic(auto, unfolding(crate::specs::Passes::quick_operation, crate::specs::Passes::item_passes, bytes_operation::specs::Decoded::decoded_operation))]
pub fn quick_operation(
    file: &[u8],
    bytes: &[u8],
    width: usize,
    pools: u32,
    directory: u32,
    table: &LimitTable,
) -> Quick
    requires { (3 ≤ width) × (width ≤ 4) }
    ensures { result ≡ quick_operation width file.now pools directory table.now bytes.now }
{
    let opcode = opcode_in(bytes);
    let target = target_in(bytes) as usize;
    if TARGETS <= target {
        return Quick {
            passed: false,
            size: 0,
        };
    }
    if opcode == 0 {
        let limits = limits_at(table, target);
        return Quick {
            passed: quick_write(bytes, width, limits),
            size: operation_size(width, 0),
        };
    }
    let limits = limits_at(table, target);
    if opcode == 1 {
        return Quick {
            passed: quick_fill(bytes, width, limits),
            size: operation_size(width, 1),
        };
    }
    if opcode == 2 {
        return Quick {
            passed: quick_copy(file, bytes, width, pools, directory, limits),
            size: operation_size(width, 2),
        };
    }
    Quick {
        passed: false,
        size: 0,
    }
}
