//! The judgement on scope: what stands where in a body before its names are resolved, what an
//! expression asks of the scope, the five faults, and the file with its binders and marks.
#![tactic(auto)]

mod claims;
pub mod laws;
mod notes;
mod places;

pub use claims::{Applied, Asked, Claim, Earlier, Stand};
pub use notes::UseNotes;
pub use places::{Site, Way, Where};
