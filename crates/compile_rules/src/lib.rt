//! How a core becomes step code: which slots its variables have and what a step does with them, over
//! names of slots, and that this is what the core means.
#![tactic(auto)]

pub mod laws;
mod places;

pub use places::{Act, Place};
