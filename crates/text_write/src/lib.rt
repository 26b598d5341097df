//! Texts written to a sink one after the other, until a write fails.
#![tactic(auto)]

mod pieces;
mod writes;

pub use pieces::{closing, letter, opening, spelled};
pub use writes::put;
