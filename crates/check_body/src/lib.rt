// The opening and the frames of a file: the rules 13 to 20.
#![tactic(auto)]

mod body;
mod opening;

pub use body::check_body;
