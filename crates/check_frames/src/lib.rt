// The frames of a file: the rules 13 to 19, and 14 for their counts; empty frames are passed over first.
#![tactic(auto)]

mod empty_frames;
mod frames;

pub use frames::check_frames;
