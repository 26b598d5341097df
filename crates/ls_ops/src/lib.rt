//! The operators on leaves, by one table: their symbols, what they take, and their values.
#![tactic(auto)]

mod kinds;
mod operands;
mod operators;
mod results;
mod symbols;

pub use kinds::{Alarm, Op, OpSign};
pub use operators::{eval, evaluate, find_op, prefix, sign_of, symbol};

#[cfg(test)]
mod tests;
