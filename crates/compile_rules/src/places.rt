//! Names of slots, and what is done with them.

use ls_base::List;
use ls_ops::Op;
use ls_value::Leaf;

/// A slot of a variable.
#[derive(Clone, Copy, Debug)]
pub enum Place {
    /// The leaf of the variable.
    Value(u32),
    /// What a delay keeps.
    Memory(u32),
    /// Whether the next instant of a delay or `->`, and of those that share its clock and its
    /// restarts, is a first one.
    First(u32),
    /// Whether the variable holds the leaf.
    Guard(u32, Leaf),
    /// Whether the variable of an output is present in this step.
    Present(u32),
    /// Whether the variable of an output's signal is present and true in this step.
    Emitted(u32),
}

/// What is done with slots: the one that is written stands first.
#[derive(Debug, Drop)]
pub enum Act {
    Put(Place, Leaf),
    Copy(Place, Place),
    Operate(Place, Op, List<Place>),
    /// Whether a slot holds the leaf; Nil where it holds Nil.
    Test(Place, Place, Leaf),
}
