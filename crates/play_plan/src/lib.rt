// The first pass of a vsync call: for any state and any bytes whether the call is refused (25), and else how many writes it
// takes, whether the vsync is then complete, and the next state. It stores no write.
#![tactic(auto)]

mod call;
mod frame;
mod opening;

pub use call::{CallPlan, plan_call};
