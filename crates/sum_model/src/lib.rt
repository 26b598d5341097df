//! The meaning of a running sum as a network of streams (Kahn 1974): definitions, a plain program
//! that computes the network slowly, and the machine that a node runs on, one step for each line.
#![tactic(auto)]

mod machine;
mod plain;
mod running_sum;
#[cfg(test)]
mod tests;

pub use machine::Machine;
pub use plain::rows;
pub use running_sum::{RunningSum, Stream};
