//! Whether the definitions of a file are causal.
#![tactic(auto)]

mod blocks;
mod cycles;
mod file;
mod graph;
mod items;
mod judge;
mod nodes;
mod ranks;
mod reads;
mod rows;

pub use file::{CauseFault, check_causality};
