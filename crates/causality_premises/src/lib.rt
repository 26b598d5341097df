//! What the link from causality to the model supposes of a body.
#![tactic(auto)]

pub mod laws;
