//! Most general types that meet a list of demands.
#![tactic(auto)]

mod pairs;
mod solution;
mod terms;

pub use solution::{Solution, SolveFault, solve};
