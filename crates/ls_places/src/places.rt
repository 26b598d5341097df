//! What stands where in a definition.

use ls_ast::{Expr, Pat};
use ls_base::List;

/// One thing around a place: a `reset`, by its number, or an arm of a block, by the block's clock
/// name and the arm's number. The arms of an automaton's first clock name are its states, and
/// those of its second the strong guards of its states.
#[derive(Clone, Copy, Debug, PartialEq, Eq)]
pub enum Frame {
    Reset(u32),
    Arm(u32, u32),
}

/// A whole expression: one that is no part of another.
#[derive(Debug, Drop)]
pub struct Whole<N> {
    pub expr: Expr<N>,
    /// What is around it, outermost first.
    pub place: List<Frame>,
}

/// The right side of an equation. Whole expressions are told by their numbers.
#[derive(Debug, Drop)]
pub enum Right {
    /// `pat = e`: each name gets the part that the pattern gives it.
    Part(Pat, u32),
    /// `clock c = e` or `emit s = e`.
    Whole(u32),
    /// A test `s(pat)` of a `present`, by the name s.
    Pattern(u32, Pat),
}

/// An equation: `pat = e`, `clock c = e`, `emit s = e`, or the pattern of a test of a `present`.
#[derive(Debug, Drop)]
pub struct Site {
    /// The numbers of the variables that it binds, in the order of the pattern.
    pub vars: List<u32>,
    pub right: Right,
    /// What is around the equation, outermost first.
    pub place: List<Frame>,
    /// The arms around it within the list of equations that binds its variables.
    pub inner: List<(u32, u32)>,
}

/// A name that a definition binds, other than its parameters.
#[derive(Debug, Drop)]
pub struct Variable {
    pub name: u32,
    /// The arms around the list of equations that binds it.
    pub list: List<(u32, u32)>,
    /// What is around its first equation, or around the block in that list that holds this
    /// equation.
    pub place: List<Frame>,
    pub signal: bool,
}

/// An initial equation `last x = e`.
#[derive(Debug, Drop)]
pub struct Start {
    pub name: u32,
    /// The arms around the list of equations that it stands in.
    pub list: List<(u32, u32)>,
    /// The number of the expression e.
    pub right: u32,
}

/// A guard of a state: the number of its condition, whether it restarts its target (`then`), and
/// the target's name.
#[derive(Debug, Drop)]
pub struct Transition {
    pub cond: u32,
    pub restart: bool,
    pub target: u32,
}

/// What a clock name that is no parameter stands for.
#[derive(Debug, Drop)]
pub enum Named {
    /// `clock c = e`: the number of the variable c.
    Clock(u32),
    /// A `match`: the number of the scrutinee, the constructor of each arm (None for `_`), and its
    /// place.
    Match(u32, List<Option<u32>>, List<Frame>),
    /// A `present`: the names of the signals of its tests, and its place.
    Present(List<u32>, List<Frame>),
    /// The active row of an automaton: the strong guards of each state, by its name, and its place.
    Active(List<(u32, List<Transition>)>, List<Frame>),
    /// The tested row of an automaton: the weak guards of each state, by its name, and its place.
    Tested(List<(u32, List<Transition>)>, List<Frame>),
}

/// What stands in a body, with its places: the variables, the equations, the initial equations,
/// what the clock names stand for, the conditions of `reset` by their numbers, and all whole
/// expressions. All lists are in the order of the text, but the condition of a `reset` comes
/// before the equations in it.
#[derive(Debug, Drop)]
pub struct Places<N> {
    pub vars: List<Variable>,
    pub sites: List<Site>,
    pub starts: List<Start>,
    pub names: List<Named>,
    pub resets: List<u32>,
    pub exprs: List<Whole<N>>,
}
