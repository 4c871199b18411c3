// Compares the writes of a master's records with those of a version 2 file's operations, in an opening or in frames.
#![tactic(auto)]

mod frames;
mod part;
mod run;

pub use frames::same_frames;
pub use part::same_opening;
