// Reads the records and operations of a file, one by one or so many in a row, with the sheet's rules 13 to 19.
#![tactic(auto)]

mod item;
mod walk;

pub use item::read_item;
pub use walk::check_operations;
