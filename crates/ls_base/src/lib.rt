//! Names, lines, lists, and the outside: texts, sources and sinks of bytes.
#![tactic(auto)]

mod boxed;
mod copy;
mod list;
mod memory;
mod names;
mod outside;
mod real;
mod steps;
#[cfg(test)]
mod tests;
mod texts;
mod write;

pub use boxed::Boxed;
pub use copy::NoteCopy;
pub use list::List;
pub use memory::{MemSink, MemSource};
pub use names::Names;
pub(crate) use outside::TEXT_LIMIT;
pub use outside::{Failed, LoadFault, Sink, Source, Texts};
pub use real::{FileTexts, InputSource, OutputSink};
use std::alloc::AllocError;
pub use steps::Steps;
pub use texts::MemTexts;
pub use write::write_all;

/// The number of a line of a text, counted from 1.
#[derive(Clone, Copy, Debug, PartialEq, Eq, PartialOrd, Ord)]
pub struct Line(pub u32);

/// The number of a name in a set of names, counted from 0.
#[derive(Clone, Copy, Debug, PartialEq, Eq, PartialOrd, Ord)]
pub struct Name(pub u32);

impl Name {
    /// The name `false`, the first of the names of each file.
    pub const FALSE: Name = Name(0);

    /// The name `true`, the second of the names of each file.
    pub const TRUE: Name = Name(1);
}

/// A block of memory was refused.
#[derive(Clone, Copy, Debug, PartialEq, Eq)]
pub struct NoMemory;

impl From<AllocError> for NoMemory {
    fn from(_error: AllocError) -> NoMemory {
        NoMemory
    }
}
