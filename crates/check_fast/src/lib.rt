// Passes items that the rules 13 to 19 allow, with every limit looked up by the target's number. What is not passed is for
// `check_items` to decide: these loops give no refusal.
#![tactic(auto)]

mod item;
mod run;

pub use run::{QuickRun, quick_run};
