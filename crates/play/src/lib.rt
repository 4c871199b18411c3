// The player of a stream file that is started: one vsync call after the other.
#![tactic(auto)]

mod vsync;

pub use play_planned::Vsync;
pub use vsync::advance_vsync;
