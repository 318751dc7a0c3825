//! Thin entries, over any types, in six shapes: an entry is lent a record, and hands it by value to the functions that it calls. What it leaves in what it was
//! lent and what it answers is said by what those functions promise, whatever they and the types are.
#![tactic(auto)]

mod record;
mod table;

pub use record::{Stepped, enter, enter_block, enter_judged, fill, read};
pub use table::enter_table;

#[cfg(test)]
mod tests;
