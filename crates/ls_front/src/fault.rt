//! The first judgement that a file fails.

use clock_infer::ClockFault;
use init_check::InitFault;
use ls_base::NoMemory;
use ls_lexer::LexFault;
use ls_parser::SyntaxFault;
use ls_scope::ScopeFault;
use thiserror::Error;
use type_infer::TypeFault;

/// The first judgement that a file fails, with its fault; a fault inside is never want of memory.
#[derive(Clone, Copy, Debug, PartialEq, Eq, Error)]
pub enum FrontFault {
    /// The text is no row of tokens.
    #[error("the text is no row of tokens")]
    Lex(LexFault),
    /// The tokens are no file.
    #[error("the tokens are no row of definitions")]
    Syntax(SyntaxFault),
    /// The names are not in scope.
    #[error("the scope of names is broken")]
    Scope(ScopeFault),
    /// A definition has no types.
    #[error("a definition is not well typed")]
    Types(TypeFault),
    /// A definition has no clocks.
    #[error("a definition is not well clocked")]
    Clocks(ClockFault),
    /// A stream may be used where it is not defined yet.
    #[error("a definition is not initialised")]
    Init(InitFault),
    /// A block of memory was refused.
    #[error("out of memory")]
    NoMemory,
}

impl From<NoMemory> for FrontFault {
    ghost use Rattle.std.specs.Prelude.{◌≡◌};
    ghost use Rattle.ls_front.specs.declared.fault.FrontFault.{FrontFault};

    ghost from_gives = { λ error fault. fault ≡ FrontFault.NoMemory };

    fn from(_error: NoMemory) -> FrontFault {
        FrontFault::NoMemory
    }
}
