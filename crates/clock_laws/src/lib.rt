//! Laws of clocks that what compiles needs.
#![tactic(auto)]

pub mod laws;
