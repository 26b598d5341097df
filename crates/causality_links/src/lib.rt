//! What the judgement on causality gives in the model of networks.
#![tactic(auto)]

pub mod laws;
