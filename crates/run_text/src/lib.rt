//! A run over lines: what it writes, the loop that writes it for any machine, and its closing line.
#![tactic(auto)]

mod closing;
mod find;
mod lines;
mod machine;

pub use closing::{write_closing, write_numbered};
pub use lines::{DriveEnd, drive};
pub use machine::{AlarmKind, LineMachine, Stepped};
