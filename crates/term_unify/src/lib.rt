//! Unification of first-order terms, with a bound on the size of what stands for a variable.
#![tactic(auto)]

mod bind;
mod classes;
mod graph;
mod laws;
mod subst;
mod unifier;
mod walk;

pub use laws::Term;
pub use subst::Subst;
pub use unifier::{Pairs, UnifyFault, unify, unify_free};
