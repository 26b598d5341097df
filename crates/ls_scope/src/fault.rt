//! The faults of scope.

use ls_base::{Line, NoMemory};
use thiserror::Error;

/// The first kind of fault of the first definition that has one, with the definition's first
/// line.
#[derive(Clone, Copy, Debug, PartialEq, Eq, Error)]
pub enum ScopeFault {
    /// A name is bound twice, or an arm or a state stands twice.
    #[error("a name is bound twice")]
    Twice(Line),
    /// A name, constructor or state is not bound at its place.
    #[error("a name is not bound")]
    Unbound(Line),
    /// A constructor has no arm or branch.
    #[error("a constructor has no arm")]
    NotAllArms(Line),
    /// A name is used in two ways, or as what it is not.
    #[error("a name is used in two ways")]
    Mixed(Line),
    /// The body of a definition without `node` holds what is not combinatorial.
    #[error("a definition without node is not combinatorial")]
    NotCombinatorial(Line),
    /// A block of memory was refused.
    #[error("out of memory")]
    NoMemory,
}

impl From<NoMemory> for ScopeFault {
    ghost use Rattle.std.specs.Prelude.{◌≡◌};
    ghost use Rattle.ls_scope.specs.declared.fault.ScopeFault.{ScopeFault};

    ghost from_gives = { λ error fault. fault ≡ ScopeFault.NoMemory };

    fn from(_error: NoMemory) -> ScopeFault {
        ScopeFault::NoMemory
    }
}
