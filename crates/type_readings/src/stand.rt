//! Where an expression stands.

/// How an expression is read.
#[derive(Clone, Copy, Debug, PartialEq, Eq)]
pub enum Stand {
    /// As a stream.
    Stream,
    /// As an argument that is a function or a signal.
    Bare,
    /// As the whole right side of an equation, where a call may answer a signal.
    Whole,
    /// As the whole body, where the name of a signal may stand besides.
    Body,
}
