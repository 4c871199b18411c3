// Compares a master with a file of version 2: repeat and frame count, the opening's writes to cores, the memory images, and each frame's
// writes.
#![tactic(auto)]

mod whole;

pub use whole::{CompareError, compare};
