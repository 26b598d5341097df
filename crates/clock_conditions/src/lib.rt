//! The conditions on the clocks of a definition: on names, on sizes, and on cycles.
#![tactic(auto)]

mod conditions;
mod cycles;
mod names;
mod sizes;

pub use conditions::{Bounds, meets};
pub use sizes::is_small;
