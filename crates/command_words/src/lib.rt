//! The words of a command line, read by `clap`.
#![tactic(auto)]

mod forms;
mod options;
#[cfg(test)]
mod tests;

pub use forms::{Command, Task, read_words};
