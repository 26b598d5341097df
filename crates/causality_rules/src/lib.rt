//! The rules of causality: what each row of a body reads at once, and their laws.
#![tactic(auto)]

pub mod laws;
