//! Values, and cells of rows.

use ls_base::List;
use ls_value::Leaf;

/// A value: a leaf or a tuple.
#[derive(Debug, Drop)]
pub enum Value {
    Leaf(Leaf),
    Tuple(List<Value>),
}

/// What stands in a row at an instant, where it is known.
#[derive(Debug, Drop)]
pub enum Cell {
    /// The clock is off.
    Absent,
    /// A signal that is not emitted.
    Silent,
    Present(Value),
    /// Of a block: the arm or state, None where the scrutinee is Nil, and whether it restarts.
    Chosen(Option<u32>, bool),
}

/// Whether the arms around an equation are active.
#[derive(Clone, Copy, Debug, PartialEq, Eq)]
pub enum Reach {
    Here,
    Elsewhere,
    /// The scrutinee of a block around it is Nil, so that no arm is active.
    NoArm,
}
