//! Trees with other notes: the one walk that rebuilds a syntax tree note by note.
#![tactic(auto)]

mod definitions;
mod equations;
mod expressions;
mod instances;
pub mod laws;
mod renote;
#[cfg(test)]
mod tests;

pub use definitions::{erase_definition, renote_body, renote_definition, renote_notes};
pub use equations::{renote_equation, renote_equations};
pub use expressions::renote_expr;
pub use instances::{Copier, Counter, Eraser, Given, Placer};
pub use renote::Renote;
