//! The enumerations of a file.

ghost use Rattle.std.specs.Prelude.{◌≡◌, ◌++◌, ◌∷◌, [], IfOk, OnOk};
ghost use Rattle.accepted_rules.specs.Enums as spec;

use ls_ast::DefOf;
use ls_base::{List, Name, NoMemory, NoteCopy};
use std::alloc::Global;

/// Adds the name of an enumeration.
fn add_enum<N>(def: &DefOf<N>, list: &mut List<Name>) -> Result<(), NoMemory>
    ensures { OnOk result (list.new ≡ list.old ++ spec.enum_names (def.now ∷ [])) }
{
    match def {
        DefOf::Cases { name, .. } => list.push(*name),
        DefOf::Let { .. } => Ok(()),
    }
}

/// The names of the enumerations, in the order of their numbers.
pub(crate) fn enum_names<N>(alloc: Global, defs: &[DefOf<N>]) -> Result<List<Name>, NoMemory>
    ensures { IfOk result (λ r. r ≡ spec.enum_names defs.now) }
{
    let mut list = List::new(alloc);
    for def in defs {
        add_enum(def, &mut list)?;
    }
    Ok(list)
}

/// Adds the constructors of an enumeration.
fn add_constructors<N>(
    alloc: Global,
    def: &DefOf<N>,
    list: &mut List<List<Name>>,
) -> Result<(), NoMemory>
    ensures { OnOk result (list.new ≡ list.old ++ spec.enum_constructors (def.now ∷ [])) }
{
    match def {
        DefOf::Cases { cases, .. } => list.push(cases.copy(alloc)?),
        DefOf::Let { .. } => Ok(()),
    }
}

/// The constructors of the enumerations, in the order of their numbers.
pub(crate) fn enum_constructors<N>(
    alloc: Global,
    defs: &[DefOf<N>],
) -> Result<List<List<Name>>, NoMemory>
    ensures { IfOk result (λ r. r ≡ spec.enum_constructors defs.now) }
{
    let mut list = List::new(alloc);
    for def in defs {
        add_constructors(alloc, def, &mut list)?;
    }
    Ok(list)
}
