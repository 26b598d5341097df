//! What stands before a file.

ghost use Rattle.std.specs.Prelude.{◌≡◌, IfOk};
ghost use Rattle.ls_sig.specs.Environment as spec;

use crate::sigs::{InitSigs, Sig};
use ls_base::{List, Name, Names, NoMemory};
use std::alloc::Global;

/// An environment, which stands for definitions before those of a file: names, enumerations with
/// their constructors, and for each definition its signature and its initialisation signature.
/// The names are numbered by `names`, and not by those of the file.
#[derive(Debug, Drop)]
pub struct Env {
    pub names: Names,
    pub enums: List<(Name, List<Name>)>,
    pub sigs: List<Sig>,
    pub inits: InitSigs,
}

impl Env {
    /// The environment of nothing.
    pub fn empty(alloc: Global) -> Result<Env, NoMemory>
        ensures { IfOk result (λ r. r ≡ spec.empty) }
    {
        Ok(Env {
            names: Names::new(alloc),
            enums: List::new(alloc),
            sigs: List::new(alloc),
            inits: InitSigs {
                list: List::new(alloc),
            },
        })
    }
}
