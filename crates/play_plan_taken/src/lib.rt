// What a call takes of the part that is playing, and what it takes of the closing writes.
#![tactic(auto)]

mod closing;
mod taken;

pub use closing::plan_closing;
pub use taken::{Taken, behind, ended, taken_by};
