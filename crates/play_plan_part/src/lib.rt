// The operations that are left of a part, without their writes: how many writes there is room for, and where the player then is.
#![tactic(auto)]

mod item;
mod operations;
mod waves;

pub use operations::{OperationsPlan, plan_operations};
pub use waves::count_of;
