//! What is looked up among what stands in a definition, worked out once.
#![tactic(auto)]

mod groups;
mod lacks;
mod params;
mod search;
mod tables;

pub use groups::{group, grouped};
pub use search::{arms, copy_numbers, has_name, nth, starts_with};
pub use tables::{NumberTables, Tables};
