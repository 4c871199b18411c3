// The answers of building an index, repacking and comparing as plain numbers, for C and Rust: the kit exports no type that holds an enum.
#![tactic(auto)]

mod comparison;
mod indexed;
mod repacked;

pub use comparison::{SgubCompared, compared_of};
pub use indexed::{SgubIndexed, indexed_of};
pub use repacked::{SgubRepacked, repacked_of};
