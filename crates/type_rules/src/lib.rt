//! The judgement on types: the rules of every form, principal annotations, and their laws.
#![tactic(auto)]

mod around;
mod demand;
pub mod laws;

pub use around::Around;
pub use demand::Demand;
