// The item at a place, read without the rules. Where 16 bytes stand there, which hold every operation, no read tests the file's end.
ghost use Rattle.std.specs.Prelude.{◌≡◌, ◌+◌, ◌^◌, ◌≤◌, ◌<◌, length};
ghost use Rattle.bytes_operation.specs.Decoded.{decoded_operation};
ghost use Rattle.base_format.specs.Size.{operation_most};
ghost use Rattle.play_item_span.specs.Decoded.{operation_decoded, decoded};
ghost use Rattle.play_item_span.specs.Span.{span_from, record_read, value_in, copy_in};

use crate::span::{Span, copy_span, span_of, value_span};
use base_format::{OPERATION_MOST, RECORD_SIZE};
use bytes_operation::{
    address_in, address_width, decode_operation, decode_record, length_in, opcode_in, operation_of,
    pool_in, size_in, source_in, target_in, value_in,
};
use bytes_read::{item_bytes, passes, window};

// A record of version 1.
#[tactic(auto, unfolding(bytes_operation::specs::Decoded::decoded_record, bytes_operation::specs::Decoded::operation_of))]
fn record_span(file: &[u8], at: usize) -> Option<Span>
    ensures { result ≡ record_read file.now at }
{
    if passes(file.len(), at, RECORD_SIZE) {
        return None;
    }
    let record = decode_record(item_bytes(file, at));
    Some(value_span(
        record.target,
        record.address,
        record.length,
        record.value,
        at + record.size,
    ))
}

// A WRITE or a FILL.
#[tactic(auto, unfolding(bytes_operation::specs::Decoded::decoded_operation))]
fn value_part(bytes: &[u8], width: usize, at: usize) -> Span
    requires { (3 ≤ width) × (width ≤ 4) × (at + operation_most < 2 ^ 64) }
    ensures { result ≡ value_in (decoded_operation width bytes.now) at }
{
    value_span(
        target_in(bytes),
        address_in(bytes, width),
        length_in(bytes, width),
        value_in(bytes, width),
        at + size_in(bytes, width),
    )
}

// A COPY.
#[tactic(auto, unfolding(bytes_operation::specs::Decoded::decoded_operation))]
fn copy_part(file: &[u8], directory: u32, bytes: &[u8], width: usize, at: usize) -> Span
    requires { (3 ≤ width) × (width ≤ 4) × (at + operation_most < 2 ^ 64) }
    ensures { result ≡ copy_in file.now directory (decoded_operation width bytes.now) at }
{
    copy_span(
        file,
        directory,
        target_in(bytes),
        address_in(bytes, width),
        pool_in(bytes, width),
        source_in(bytes, width),
        length_in(bytes, width),
        at + size_in(bytes, width),
    )
}

// An operation at a place where 16 bytes stand.
fn quick_span(file: &[u8], directory: u32, width: usize, at: usize) -> Option<Span>
    requires { (3 ≤ width) × (width ≤ 4) × (at + operation_most ≤ length file.now) }
    ensures { result ≡ span_from file.now directory (operation_decoded file.now width at) }
{
    let bytes = window(file, at);
    let opcode = opcode_in(bytes);
    if opcode < 2 {
        return Some(value_part(bytes, width, at));
    }
    let is_copy = opcode == 2;
    if is_copy {
        return Some(copy_part(file, directory, bytes, width, at));
    }
    None
}

// An operation in the last bytes of a file.
fn last_span(file: &[u8], directory: u32, width: usize, at: usize) -> Option<Span>
    requires { (3 ≤ width) × (width ≤ 4) }
    ensures { result ≡ span_from file.now directory (operation_decoded file.now width at) }
{
    let item = decode_operation(item_bytes(file, at), width);
    if 2 < item.opcode {
        return None;
    }
    let size = item.size;
    if passes(file.len(), at, size) {
        return None;
    }
    Some(span_of(file, directory, operation_of(item), at + size))
}

// The item at a place.
#[tactic(auto, unfolding(crate::specs::Decoded::decoded), using(crate::proofs::Spans::record_read_lem))]
pub fn read_span(file: &[u8], version: u8, directory: u32, at: usize) -> Option<Span>
    ensures { result ≡ span_from file.now directory (decoded file.now version at) }
{
    if version == 1 {
        return record_span(file, at);
    }
    let width = address_width(version);
    if passes(file.len(), at, OPERATION_MOST) {
        return last_span(file, directory, width, at);
    }
    quick_span(file, directory, width, at)
}
