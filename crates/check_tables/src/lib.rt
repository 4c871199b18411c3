// The tables and the places of the sections: the rules 8 to 12.
#![tactic(auto)]

mod layout;
mod rules;

pub use layout::check_layout;
