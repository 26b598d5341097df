//! Patterns as schemes, and the names in them.

ghost use Rattle.std.specs.Prelude.{◌≡◌, ◌+◌, ◌++◌, map, IfOk, OnOk};
ghost use Rattle.type_rules.specs.Bodies as spec;

use ls_ast::Pat;
use ls_base::{List, NoMemory};
use ls_terms::TypeTerm;
use std::alloc::Global;

/// A name, and its variable in the scheme of a pattern.
pub type Named = (u32, u32);

/// The next variable of a scheme.
fn leaf(next: &mut u32) -> Result<TypeTerm, NoMemory>
    ensures scheme { IfOk result (λ r. r ≡ TypeTerm.Var next.old) }
    ensures next { OnOk result (next.new ≡ next.old + 1) }
{
    let number = *next;
    match number.checked_add(1) {
        Some(after) => {
            *next = after;
            Ok(TypeTerm::Var(number))
        }
        None => Err(NoMemory),
    }
}

#[cycle(scheme)]
fn schemes(
    alloc: Global,
    all: &[Pat],
    next: &mut u32,
    names: &mut List<Named>,
) -> Result<List<TypeTerm>, NoMemory>
    ensures scheme { IfOk result (λ r. r ≡ spec.schemes_of (map spec.shape_of all.now) next.old) }
    ensures next { OnOk result (next.new ≡ next.old + spec.leaves_of (map spec.shape_of all.now)) }
    ensures names { OnOk result (names.new ≡ names.old ++ spec.names_in (map spec.shape_of all.now) next.old) }
{
    let mut list = List::new(alloc);
    for pat in all {
        let part = scheme(alloc, pat, next, names)?;
        list.push(part)?;
    }
    Ok(list)
}

/// The pattern as a scheme with a variable for each name and each `_`, from a number on. Adds the
/// names, each with its variable. It is refused where memory is, and where the variables are as
/// many as a list may have items.
#[cycle(scheme)]
pub fn scheme(
    alloc: Global,
    pat: &Pat,
    next: &mut u32,
    names: &mut List<Named>,
) -> Result<TypeTerm, NoMemory>
    ensures scheme { IfOk result (λ r. r ≡ (spec.shape_of pat.now).scheme next.old) }
    ensures next { OnOk result (next.new ≡ next.old + (spec.shape_of pat.now).leaves) }
    ensures names { OnOk result (names.new ≡ names.old ++ (spec.shape_of pat.now).names next.old) }
{
    match pat {
        Pat::Any => leaf(next),
        Pat::Unit => Ok(TypeTerm::Unit),
        Pat::Var(name) => {
            names.push((name.0, *next))?;
            leaf(next)
        }
        Pat::Tuple(parts) => {
            let parts = schemes(alloc, parts.as_slice(), next, names)?;
            Ok(TypeTerm::Tuple(parts))
        }
    }
}

/// The name that a pattern is, if it is one.
pub fn alone(pat: &Pat) -> Option<u32>
    ensures { result ≡ (spec.shape_of pat.now).alone }
{
    match pat {
        Pat::Var(name) => Some(name.0),
        Pat::Any => None,
        Pat::Unit => None,
        Pat::Tuple(_) => None,
    }
}
