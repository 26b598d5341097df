//! The core that nodes are compiled through: equations on leaves, each with a clock, and what they
//! mean.
#![tactic(auto)]

mod copies;
mod cores;
mod equations;
pub mod laws;

pub use cores::{Core, Ordered};
pub use equations::{CoreEq, CoreOut, CoreRight};
