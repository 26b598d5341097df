//! What a test tells of a program, in place of types and clocks that would be inferred.

/// What is told of a name. Clocks that nothing determines are variables with a number above 0.
#[derive(Clone, Copy)]
pub enum Told<'a> {
    /// Nothing: it is on the clock of its place.
    Here,
    /// It is a signal, on the clock of its place, that an equation binds which is no `emit`.
    Signal,
    /// It is on a clock that nothing determines.
    Free(u32),
    /// It is on the clock of its place, sampled on this case of the condition of this name.
    Sampled(&'a str, u32),
    /// It is on the clock of its place, and its right side restarts also where the variable of this
    /// name is true.
    Restarts(&'a str),
    /// It stands for a pointwise function.
    Pointwise,
    /// It stands for a node: the clocks of its parameters and of its result, where 0 is the clock
    /// of the place.
    Node(&'a [u32], u32),
}

/// What is told of a name in a definition.
#[derive(Clone, Copy)]
pub struct Hint<'a> {
    pub def: &'a str,
    pub name: &'a str,
    pub told: Told<'a>,
}
