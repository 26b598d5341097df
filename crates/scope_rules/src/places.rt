//! Where the names of a body are bound.

use ls_base::List;

/// Where an equation stands. An arm is the number of its block's clock name, and its own number
/// in the block; the states of an automaton are the arms of its first clock name, and the strong
/// guards of its states those of its second.
#[derive(Debug, Drop)]
pub struct Where {
    /// The arms around the list of equations that binds the equation's names, outermost first.
    pub list: List<(u32, u32)>,
    /// The arms between that list and the equation.
    pub inner: List<(u32, u32)>,
}

/// How a name is bound.
#[derive(Clone, Copy, Debug, PartialEq, Eq)]
pub enum Way {
    /// By `pat = e`.
    Part,
    /// By `x = f e ..` or `x = run f e ..`, of the number of the name `f`.
    Called(u32),
    /// By `clock c = e`.
    Clock,
    /// By `emit s = e`.
    Emitted,
    /// By the pattern of a test of a `present`.
    Tested,
}

/// A name, bound at a place.
#[derive(Debug, Drop)]
pub struct Site {
    pub var: u32,
    /// The arms around the list of equations that binds it.
    pub list: List<(u32, u32)>,
    /// The arms between that list and the place.
    pub inner: List<(u32, u32)>,
    pub way: Way,
}
