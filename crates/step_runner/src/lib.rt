//! The machine that evaluates step code.
#![tactic(auto)]

mod inputs;
mod leaves;
mod lines;
mod machine;
mod rows;

pub use machine::Machine;
pub use run_text::{AlarmKind, Stepped};
