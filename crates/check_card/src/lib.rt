// One card of version 4: its bytes, and the card rules (7).
#![tactic(auto)]

mod entry;
mod rules;

pub use entry::read_card;
pub use rules::{card_wrong, one_card_wrong};
