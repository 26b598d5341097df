//! The notes that the judgements leave on the trees, and signatures.
#![tactic(auto)]

mod binder;
mod env;
mod noted;
mod sigs;

pub use binder::{Ann, Binder, Note, Resolved, TypeNote, Typed, Use};
pub use env::Env;
pub use noted::SignalNote;
pub use sigs::{InitSig, InitSigs, Item, Ranks, Sig};

#[cfg(test)]
mod tests;
