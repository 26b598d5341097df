//! The clocks of signatures as text.
#![tactic(auto)]

mod conditions;
mod lines;

pub use lines::print_clock;
