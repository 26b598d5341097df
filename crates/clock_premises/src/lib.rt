//! What the laws of clocks suppose of a definition, which its scope gives.
#![tactic(auto)]

pub mod laws;
