// The item at a place of a file that an earlier pass has checked, as numbers alone.
#![tactic(auto)]

mod decode;
mod span;

pub use decode::read_span;
pub use span::Span;
