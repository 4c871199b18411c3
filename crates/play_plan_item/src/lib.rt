// Reads an operation that a call takes writes from: the rules 13 to 19, rule 7 for its card, and 9 and 11 for its pool. Whatever
// fails is refusal 25.
#![tactic(auto)]

mod item;
mod rules;

pub use item::item_used;
