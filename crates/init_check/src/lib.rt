//! Whether the definitions of a file are initialised, and their signatures.
#![tactic(auto)]

mod file;
mod graph;
mod judge;
mod nodes;
mod sources;
mod zeros;

pub use file::{InitFault, check_init, check_init_after};
