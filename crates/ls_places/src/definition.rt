//! Definitions, and the rows that a body has.

use crate::places::Places;
use ls_ast::{Expr, Pat};
use ls_base::List;
use ls_sig::Note;
use ls_terms::ClockTerm;

/// A `let` definition, with what stands where in its body.
#[derive(Debug, Drop)]
pub struct Definition {
    pub params: List<Pat>,
    /// The clock of each parameter.
    pub clocks: List<ClockTerm>,
    pub result: Expr<Note>,
    pub places: Places<Note>,
}

/// A row of a body: what is computed in it at each instant.
#[derive(Clone, Copy, Debug, PartialEq, Eq)]
pub enum Key {
    /// A variable, by its number.
    Var(u32),
    /// The initial equation of the variable of this number.
    Start(u32),
    /// A block, by its clock name: the selector of a `match` or `present`, the active or the
    /// tested row of an automaton.
    Name(u32),
    /// The condition of a `reset`, by its number.
    Reset(u32),
}
