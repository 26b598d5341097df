//! What a definition asks of the types of its places: the walk that collects the demands.
#![tactic(auto)]

mod around;
mod bodies;
mod definition;
mod patterns;

pub use definition::{demands_of, name_marks, param_names};
