//! Variables of types in order of first appearance.

ghost use Rattle.std.specs.Prelude.{◌≡◌, ◌+◌, ◌++◌, ◌∷◌, [], map, nat_eq, IfOk, OnOk};
ghost use Rattle.indexmap.specs.IndexSet.{insert_key, insert_all};
ghost use Rattle.type_rules.specs.Files.{appearing, renumbered};
ghost use Rattle.type_rules.specs.Schemes.{joined, vars};

use indexmap::IndexSet;
use ls_base::{Boxed, List, NoMemory};
use ls_terms::TypeTerm;
use std::alloc::Global;

fn add_variable(x: u32, seen: &mut IndexSet<u32>) -> Result<(), NoMemory>
    ensures { OnOk result (seen.new.keys ≡ insert_key nat_eq seen.old.keys x) }
{
    match seen.insert(x) {
        Ok(_) => Ok(()),
        Err(_) => Err(NoMemory),
    }
}

/// Adds the variables of a term that are not there yet.
#[cycle(appear)]
fn appear(t: &TypeTerm, seen: &mut IndexSet<u32>) -> Result<(), NoMemory>
    ensures { OnOk result (seen.new.keys ≡ insert_all nat_eq seen.old.keys (vars t.now)) }
{
    match t {
        TypeTerm::Var(x) => add_variable(*x, seen),
        TypeTerm::Tuple(all) => appear_all(all.as_slice(), seen),
        TypeTerm::Arrow(_, all, to) => {
            appear_all(all.as_slice(), seen)?;
            appear(to.get(), seen)
        }
        TypeTerm::Signal(of) => appear(of.get(), seen),
        TypeTerm::Int => Ok(()),
        TypeTerm::Bool => Ok(()),
        TypeTerm::Char => Ok(()),
        TypeTerm::Text => Ok(()),
        TypeTerm::Unit => Ok(()),
        TypeTerm::Enum(_) => Ok(()),
    }
}

#[cycle(appear)]
fn appear_all(all: &[TypeTerm], seen: &mut IndexSet<u32>) -> Result<(), NoMemory>
    ensures { OnOk result (seen.new.keys ≡ insert_all nat_eq seen.old.keys (joined (map vars all.now))) }
{
    for t in all {
        appear(t, seen)?;
    }
    Ok(())
}

/// The variables of the types of parameters and of a result, in order of first appearance.
pub fn order_of(
    alloc: Global,
    params: &[TypeTerm],
    to: &TypeTerm,
) -> Result<IndexSet<u32>, NoMemory>
    ensures { IfOk result (λ r. r.keys ≡ appearing (params.now ++ to.now ∷ [])) }
{
    let mut seen = IndexSet::new(alloc);
    appear_all(params, &mut seen)?;
    appear(to, &mut seen)?;
    Ok(seen)
}

fn added(first: u32, at: usize) -> Result<u32, NoMemory>
    ensures { IfOk result (λ r. r ≡ first + at) }
{
    let sum = (first as usize).saturating_add(at);
    if sum > 4_294_967_295 {
        return Err(NoMemory);
    }
    Ok(sum as u32)
}

/// A variable by the place at which it appeared first, from a number on.
fn number(first: u32, x: u32, seen: &IndexSet<u32>) -> Result<TypeTerm, NoMemory>
    ensures { IfOk result (λ r. r ≡ renumbered first seen.now.keys (TypeTerm.Var x)) }
{
    match seen.get_index_of(&x) {
        None => Ok(TypeTerm::Var(x)),
        Some(at) => Ok(TypeTerm::Var(added(first, at)?)),
    }
}

/// The term with each variable by the place at which it appeared first, from a number on. It is
/// refused where memory is, and where a variable would have too great a number.
#[cycle(renumber)]
pub fn renumber(
    alloc: Global,
    first: u32,
    t: &TypeTerm,
    seen: &IndexSet<u32>,
) -> Result<TypeTerm, NoMemory>
    ensures { IfOk result (λ r. r ≡ renumbered first seen.now.keys t.now) }
{
    match t {
        TypeTerm::Var(x) => number(first, *x, seen),
        TypeTerm::Int => Ok(TypeTerm::Int),
        TypeTerm::Bool => Ok(TypeTerm::Bool),
        TypeTerm::Char => Ok(TypeTerm::Char),
        TypeTerm::Text => Ok(TypeTerm::Text),
        TypeTerm::Unit => Ok(TypeTerm::Unit),
        TypeTerm::Enum(e) => Ok(TypeTerm::Enum(*e)),
        TypeTerm::Tuple(all) => {
            Ok(TypeTerm::Tuple(renumber_all(alloc, first, all.as_slice(), seen)?))
        }
        TypeTerm::Arrow(kind, all, to) => {
            let all = renumber_all(alloc, first, all.as_slice(), seen)?;
            let to = renumber(alloc, first, to.get(), seen)?;
            Ok(TypeTerm::Arrow(*kind, all, Boxed::new(alloc, to)?))
        }
        TypeTerm::Signal(of) => {
            let of = renumber(alloc, first, of.get(), seen)?;
            Ok(TypeTerm::Signal(Boxed::new(alloc, of)?))
        }
    }
}

#[cycle(renumber)]
pub fn renumber_all(
    alloc: Global,
    first: u32,
    all: &[TypeTerm],
    seen: &IndexSet<u32>,
) -> Result<List<TypeTerm>, NoMemory>
    ensures { IfOk result (λ r. r ≡ map (renumbered first seen.now.keys) all.now) }
{
    let mut done = List::new(alloc);
    for t in all {
        done.push(renumber(alloc, first, t, seen)?)?;
    }
    Ok(done)
}
