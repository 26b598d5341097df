//! The faults of types.

use ls_base::{Line, NoMemory};
use thiserror::Error;

#[derive(Clone, Copy, Debug, PartialEq, Eq, Error)]
pub enum TypeFault {
    /// No types of at most 4,096 nodes obey the rules in the definition that begins on this line,
    /// the first such one.
    #[error("a definition is not well typed")]
    IllTyped(Line),
    /// A block of memory was refused, or places and variables would have too great numbers.
    #[error("out of memory")]
    NoMemory,
}

impl From<NoMemory> for TypeFault {
    ghost use Rattle.std.specs.Prelude.{◌≡◌};
    ghost use Rattle.type_infer.specs.declared.fault.TypeFault.{TypeFault};

    ghost from_gives = { λ error fault. fault ≡ TypeFault.NoMemory };

    fn from(_error: NoMemory) -> TypeFault {
        TypeFault::NoMemory
    }
}
