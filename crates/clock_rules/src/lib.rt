//! The rules of clocks: which annotations obey them, and why unification finds the principal one.
#![tactic(auto)]

pub mod laws;
mod scheme;

pub use scheme::ClockScheme;
