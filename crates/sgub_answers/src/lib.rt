// The answers about a file, its cards and its pools as plain numbers, for C and Rust: the kit exports no type that holds an enum.
#![tactic(auto)]

mod card;
mod pool;
mod verdict;

pub use card::{SgubCard, card_of};
pub use pool::{SgubPool, pool_of};
pub use verdict::{SgubVerdict, verdict_of};
