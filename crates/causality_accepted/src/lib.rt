//! Every accepted file is causal in the model of networks.
#![tactic(auto)]

pub mod laws;
