//! Equations on leaves.

use ls_base::List;
use ls_ops::Op;
use ls_value::{Leaf, Shape};

/// An equation of one variable.
#[derive(Debug, Drop)]
pub struct CoreEq {
    pub var: u32,
    pub shape: Shape,
    /// The variables with the leaves that they must hold, outermost first. The equation is on
    /// where each is present and holds its leaf.
    pub clock: List<(u32, Leaf)>,
    /// The truth values that restart its memory where one is present and true.
    pub restarts: List<u32>,
    /// It is greater than that of each variable which the equation reads at once.
    pub rank: u32,
    pub right: CoreRight,
}

/// A right side. Numbers are variables.
#[derive(Debug, Drop)]
pub enum CoreRight {
    Const(Leaf),
    Copy(u32),
    Op(Op, List<u32>),
    /// The leaf of the previous instant; Nil at a first one.
    Pre(u32),
    /// The first one's leaf at a first instant, and then the second's of the previous instant.
    Fby(u32, u32),
    /// The first one's leaf at a first instant, and then the second's.
    Init(u32, u32),
    /// A variable of the clock that the last condition of this one's samples.
    Sample(u32),
    /// The branch of the leaf that the variable holds.
    Choose(u32, List<(Leaf, u32)>),
}

/// A leaf of the result.
#[derive(Clone, Copy, Debug)]
pub struct CoreOut {
    pub var: u32,
    /// The variable that is true exactly where the signal of this leaf is emitted.
    pub signal: Option<u32>,
}
