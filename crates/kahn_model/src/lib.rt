//! The meaning of a program: the network of streams of its nodes, after Kahn (1974).
#![tactic(auto)]

mod cell;
pub mod laws;

pub use cell::{Cell, Reach, Value};

#[cfg(test)]
mod tests;
