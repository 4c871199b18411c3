// The records of a vsync call as segments, one after the other. Nothing is stored here.
#![tactic(auto)]

mod closing;
mod place;
mod turn;

pub use place::{Place, Turn};
pub use turn::next_segment;
