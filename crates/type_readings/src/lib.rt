//! What expressions ask of the types of their parts: the walk that collects their demands.
#![tactic(auto)]

mod expressions;
mod fits;
mod given;
mod operators;
mod stand;

pub use expressions::{CallKind, Placed, answers_signal, ask_expr};
pub use fits::{Fit, any, any_signal, fits_one, fits_two, never};
pub use given::{CaseTypes, Given};
pub use stand::Stand;
