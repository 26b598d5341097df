//! The one form of node that is run so far.

/// One of the two streams of a running sum.
#[derive(Clone, Copy, Debug, PartialEq, Eq)]
pub enum Stream {
    /// The node's parameter.
    Param,
    /// The stream that the equation binds.
    Sum,
}

/// The body `result where rec sum = param + (first fby delayed)` of a node with one parameter.
#[derive(Clone, Copy, Debug, PartialEq, Eq)]
pub struct RunningSum {
    pub first: i64,
    pub delayed: Stream,
    pub result: Stream,
}
