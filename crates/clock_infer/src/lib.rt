//! Inference of clocks: the principal annotation of a definition, or that none obeys the rules.
#![tactic(auto)]

mod definition;
mod file;
mod nodes;
mod puts;
mod schemes;
mod signatures;

pub use definition::{Clocked, clock_definition};
pub use file::{ClockFault, infer_clocks, infer_clocks_after};
pub use schemes::{scheme, schemes_of};
pub use signatures::clock_signatures;
