//! What keeps a file from being a row of tokens.

use ls_base::{Line, NoMemory};
use std::alloc::AllocError;
use thiserror::Error;

/// The first thing that keeps a file from being a row of tokens. `NotUtf8` is judged first, over
/// the whole file; the others by the place where the token or the comment begins.
#[derive(Clone, Copy, Debug, PartialEq, Eq, Error)]
pub enum LexFault {
    /// The line of the first byte that begins no character of UTF-8.
    #[error("not UTF-8 at line {}", .0.0)]
    NotUtf8(Line),
    /// The line of a character that begins no token, or of the quote of a character or a string
    /// that is not closed as it must be.
    #[error("bad character at line {}", .0.0)]
    Bad(Line),
    /// The line of the first quote of a string of more than 63 characters.
    #[error("text too long at line {}", .0.0)]
    LongText(Line),
    /// The line of an integer over 9223372036854775807.
    #[error("integer too wide at line {}", .0.0)]
    WideInt(Line),
    /// The line of the outermost `(*` of a comment that is not closed.
    #[error("comment not closed at line {}", .0.0)]
    OpenComment(Line),
    #[error("out of memory")]
    NoMemory,
}

impl From<NoMemory> for LexFault {
    ghost use Rattle.std.specs.Prelude.{◌≡◌};
    ghost use Rattle.ls_lexer.specs.declared.fault.LexFault.{LexFault};

    ghost from_gives = { λ error fault. fault ≡ LexFault.NoMemory };

    fn from(_error: NoMemory) -> LexFault {
        LexFault::NoMemory
    }
}

impl From<AllocError> for LexFault {
    ghost use Rattle.std.specs.Prelude.{◌≡◌};
    ghost use Rattle.ls_lexer.specs.declared.fault.LexFault.{LexFault};

    ghost from_gives = { λ error fault. fault ≡ LexFault.NoMemory };

    fn from(_error: AllocError) -> LexFault {
        LexFault::NoMemory
    }
}
