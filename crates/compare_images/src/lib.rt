// The two memory images of a comparison: the master's, and the other file's.
#![tactic(auto)]

mod master;
mod other;

pub use master::draw_master;
pub use other::draw_other;
