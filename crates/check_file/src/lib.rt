// Checks a whole file by the sheet's rules 1 to 20.
#![tactic(auto)]

mod check;

pub use check::{Recorded, check_file};
