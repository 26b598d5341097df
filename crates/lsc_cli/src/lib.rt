//! The top call: from the words of a command and the objects of the outside to what is written.
#![tactic(auto)]

mod call;
mod check;
mod exec;
mod form;
mod node;
mod refusal;
mod run;
mod status;
#[cfg(test)]
mod tests;

pub use call::lsc;
pub use status::Status;
