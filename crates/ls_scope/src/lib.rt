//! Resolution of names: the binder of each use of a name, the mark of each parameter, and the
//! first fault of scope.
#![tactic(auto)]

mod after;
mod arms;
mod around;
mod asked;
mod calls;
mod claims;
mod contents;
mod definition;
mod fault;
mod keys;
mod known;
mod marks;
mod mixed;
mod numbers;
mod sight;
mod twice;
mod unbound;
mod uses;
mod variables;

pub use calls::{resolve, resolve_after};
pub use fault::ScopeFault;
