//! An environment, with its names among those of a file.

ghost use Rattle.std.specs.Prelude.{◌≡◌, [], ◌∷◌, ◌++◌, map, slice_get, IfOk, OnOk};
ghost use Rattle.scope_rules.specs.Places.{option_list};
ghost use Rattle.ls_sig.specs.Notes.{is_signal};
ghost use Rattle.ls_base.specs.Names.{with_name};
ghost use Rattle.scope_rules.specs.After as spec;

use crate::known::Known;
use ls_base::{List, Name, Names, NoMemory, NoteCopy};
use ls_sig::{Env, Sig};
use ls_terms::{Kind, TypeTerm};
use scope_rules::Earlier;
use std::alloc::Global;

fn add_name(spelling: &str, names: &mut Names) -> Result<(), NoMemory>
    ensures { OnOk result (names.new ≡ with_name names.old spelling.now) }
{
    names.add(spelling)?;
    Ok(())
}

// One more name of an environment.
fn add_spelling(theirs: &Names, k: u32, names: &mut Names) -> Result<(), NoMemory>
    ensures { OnOk result (names.new ≡ spec.joint names.old (option_list (slice_get theirs.now k))) }
{
    match theirs.spell(Name(k)) {
        Some(spelling) => add_name(spelling, names),
        None => Ok(()),
    }
}

/// The names of a file, and then those of an environment that the file lacks.
pub fn names_after(alloc: Global, env: &Env, own: &Names) -> Result<Names, NoMemory>
    ensures { IfOk result (λ r. r ≡ spec.names_after env.now own.now) }
{
    let mut names = own.copy(alloc)?;
    let theirs = &env.names;
    for k in 0..theirs.len() {
        add_spelling(theirs, k as u32, &mut names)?;
    }
    Ok(names)
}

// The number that a name of the environment has among the joint ones.
fn renumbered(names: &Names, theirs: &Names, x: Name) -> u32
    ensures { result ≡ spec.renumbered names.now theirs.now x.0 }
{
    let none = names.len() as u32;
    match theirs.spell(x) {
        None => none,
        Some(spelling) => match names.find(spelling) {
            None => none,
            Some(name) => name.0,
        },
    }
}

fn cases_of(
    alloc: Global,
    names: &Names,
    theirs: &Names,
    cases: &[Name],
) -> Result<List<u32>, NoMemory>
    ensures { IfOk result (λ r. r ≡ map (λ (c : Name). spec.renumbered names.now theirs.now c.0) cases.now) }
{
    let mut done = List::new(alloc);
    for case in cases {
        done.push(renumbered(names, theirs, *case))?;
    }
    Ok(done)
}

fn is_seq(kind: Kind) -> bool
    ensures { result ≡ spec.is_seq kind }
{
    match kind {
        Kind::Seq => true,
        Kind::Comb => false,
    }
}

fn is_signal_type(ty: &TypeTerm) -> bool
    ensures { result ≡ is_signal ty.now }
{
    match ty {
        TypeTerm::Signal(_) => true,
        TypeTerm::Var(_) => false,
        TypeTerm::Int => false,
        TypeTerm::Bool => false,
        TypeTerm::Char => false,
        TypeTerm::Text => false,
        TypeTerm::Unit => false,
        TypeTerm::Enum(_) => false,
        TypeTerm::Tuple(_) => false,
        TypeTerm::Arrow(_, _, _) => false,
    }
}

fn earlier_of(alloc: Global, names: &Names, theirs: &Names, sig: &Sig) -> Result<Earlier, NoMemory>
    ensures { IfOk result (λ r. r ≡ spec.earlier_of (spec.renumbered names.now theirs.now) sig.now) }
{
    Ok(Earlier {
        title: renumbered(names, theirs, sig.name),
        node: is_seq(sig.kind),
        marks: sig.marks.copy(alloc)?,
        answers: is_signal_type(&sig.result),
    })
}

// With one more enumeration of an environment.
fn with_enum_of(
    alloc: Global,
    names: &Names,
    theirs: &Names,
    e: &(Name, List<Name>),
    known: Known,
) -> Result<Known, NoMemory>
    ensures { IfOk result (λ r. r ≡ record { enums = known.enums ++ spec.enum_as (spec.renumbered names.now theirs.now) e.now ∷ []; defs = known.defs }) }
{
    let cases = cases_of(alloc, names, theirs, e.1.as_slice())?;
    known.with_enum(renumbered(names, theirs, e.0), cases)
}

fn with_enums(
    alloc: Global,
    names: &Names,
    theirs: &Names,
    enums: &[(Name, List<Name>)],
) -> Result<Known, NoMemory>
    ensures { IfOk result (λ r. r ≡ record { enums = map (spec.enum_as (spec.renumbered names.now theirs.now)) enums.now; defs = [] }) }
{
    let mut known = Known::new(alloc);
    for e in enums {
        let next = with_enum_of(alloc, names, theirs, e, known)?;
        known = next;
    }
    Ok(known)
}

/// What an environment stands for, by the joint names.
pub fn known_after(alloc: Global, names: &Names, env: &Env) -> Result<Known, NoMemory>
    ensures { IfOk result (λ r. r ≡ spec.known_with (spec.renumbered names.now env.now.names) env.now) }
{
    let mut known = with_enums(alloc, names, &env.names, env.enums.as_slice())?;
    for sig in env.sigs.as_slice() {
        let earlier = earlier_of(alloc, names, &env.names, sig)?;
        let next = known.with_def(earlier)?;
        known = next;
    }
    Ok(known)
}
