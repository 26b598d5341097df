//! The signatures of annotated definitions, their instances and their texts.
#![tactic(auto)]

mod numbering;
mod signatures;
mod texts;

pub use signatures::{instance, signature, type_signatures};
pub use texts::print_type;
