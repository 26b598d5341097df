//! Inference of types: the principal annotation of each definition of a file, after Damas and
//! Milner (1982).
#![tactic(auto)]

mod cases;
mod definition;
mod fault;
mod file;
mod signals;
mod trees;

pub use fault::TypeFault;
pub use file::{infer_types, infer_types_after};
