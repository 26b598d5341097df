//! What keeps a text from being the text of valid code.

use ls_base::{Line, NoMemory};
use thiserror::Error;

/// The first bad line of a text, and why it is bad.
#[derive(Clone, Copy, Debug, PartialEq, Eq, Error)]
pub enum CodeFault {
    /// The line is not of the kind that its place wants, or is missing.
    #[error("not code at line {}", .0.0)]
    NotCode(Line),
    /// A number on the line names nothing, or what it names is taken.
    #[error("slot at line {}", .0.0)]
    BadSlot(Line),
    /// The line reads a slot before it is written, writes one that it may not write, or goes too
    /// far.
    #[error("order at line {}", .0.0)]
    BadOrder(Line),
    /// A leaf or a slot on the line has not the shape that its place wants.
    #[error("shape at line {}", .0.0)]
    BadShape(Line),
    #[error("out of memory")]
    NoMemory,
}

impl From<NoMemory> for CodeFault {
    ghost use Rattle.std.specs.Prelude.{◌≡◌};
    ghost use Rattle.step_text.specs.declared.fault.CodeFault.{CodeFault};

    ghost from_gives = { λ error fault. fault ≡ CodeFault.NoMemory };

    fn from(_error: NoMemory) -> CodeFault {
        CodeFault::NoMemory
    }
}
