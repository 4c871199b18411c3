// The one reader of records and operations: their numbers, in bytes that begin with one, by value and without the rules. Every path
// that takes an item apart calls it: whole, or in a hot loop number by number, because the compiler does not inline the whole. What the
// crate bytes_operation_size says of addresses and sizes is passed on.
#![tactic(auto)]

mod decode;
mod number;

pub use bytes_operation_size::{address_width, operation_size, read_address};
pub use decode::{Decoded, decode_item, decode_operation, decode_record, operation_of};
pub use number::{
    address_in, length_in, opcode_in, pool_in, size_in, source_in, target_in, value_in,
};
