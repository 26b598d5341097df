//! What the judgement on types supposes of a file, which its scope gives.
#![tactic(auto)]

pub mod laws;
