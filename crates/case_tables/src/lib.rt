//! The place of each constructor in its enumeration, by a table.
#![tactic(auto)]

mod cases;

pub use cases::Cases;
