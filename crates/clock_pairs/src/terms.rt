//! Terms of clocks: their instances, and what types tell of them.

ghost use Rattle.std.specs.Prelude.{◌≡◌, drop, map, IfOk};
ghost use Rattle.clock_pairs.specs.Terms as spec;
ghost use Rattle.clock_rules.specs.Rules as rules;
ghost use Rattle.clock_rules.specs.Terms as terms;

use crate::index::nth;
use crate::scene::clock_at;
use clock_rules::ClockScheme;
use ls_base::{Boxed, List, NoMemory, NoteCopy};
use ls_sig::Binder;
use ls_terms::{ClockTerm, Kind, TypeTerm};
use std::alloc::Global;

/// A clock sampled where the value under a name is this case.
pub fn on(alloc: Global, ck: ClockTerm, m: u32, k: u32) -> Result<ClockTerm, NoMemory>
    ensures { IfOk result (λ r. r ≡ terms.on ck m k) }
{
    Ok(ClockTerm::On(Boxed::new(alloc, ck)?, m, k))
}

/// The clock of a function.
pub fn arrow(alloc: Global, from: List<ClockTerm>, to: ClockTerm) -> Result<ClockTerm, NoMemory>
    ensures { IfOk result (λ r. r ≡ terms.arrow from to) }
{
    Ok(ClockTerm::Arrow(from, Boxed::new(alloc, to)?))
}

/// Whether this is the type of a function.
pub fn is_function(ty: &TypeTerm) -> bool
    ensures { result ≡ terms.is_function ty.now }
{
    match ty {
        TypeTerm::Arrow(_, _, _) => true,
        TypeTerm::Var(_) => false,
        TypeTerm::Int => false,
        TypeTerm::Bool => false,
        TypeTerm::Char => false,
        TypeTerm::Text => false,
        TypeTerm::Unit => false,
        TypeTerm::Enum(_) => false,
        TypeTerm::Tuple(_) => false,
        TypeTerm::Signal(_) => false,
    }
}

/// Whether this is the type of a combinatorial function.
pub fn is_comb(ty: &TypeTerm) -> bool
    ensures { result ≡ terms.is_comb ty.now }
{
    match ty {
        TypeTerm::Arrow(kind, _, _) => match kind {
            Kind::Comb => true,
            Kind::Seq => false,
        },
        TypeTerm::Var(_) => false,
        TypeTerm::Int => false,
        TypeTerm::Bool => false,
        TypeTerm::Char => false,
        TypeTerm::Text => false,
        TypeTerm::Unit => false,
        TypeTerm::Enum(_) => false,
        TypeTerm::Tuple(_) => false,
        TypeTerm::Signal(_) => false,
    }
}

/// The number after the greatest variable of a clock, and 0 where it has none.
#[cycle(variables)]
fn variables(t: &ClockTerm) -> u64
    ensures { result ≡ terms.variables t.now }
{
    match t {
        ClockTerm::Var(x) => u64::from(*x) + 1,
        ClockTerm::On(of, _, _) => variables(of.get()),
        ClockTerm::Pointwise => 0,
        ClockTerm::Arrow(all, to) => larger(variables(to.get()), greatest(all.as_slice(), 0)),
    }
}

#[cycle(variables)]
fn greatest(all: &[ClockTerm], least: u64) -> u64
    ensures { result ≡ terms.greatest_from (map terms.variables all.now) least }
{
    let mut most = least;
    for t in all {
        most = larger(most, variables(t));
    }
    most
}

fn larger(a: u64, b: u64) -> u64
    ensures { result ≡ terms.larger a b }
{
    if a < b { b } else { a }
}

/// How many clock variables the signature has that a name means.
pub fn count_at(schemes: &[ClockScheme], bound: Binder) -> u64
    ensures { result ≡ rules.count_at schemes.now bound }
{
    match bound {
        Binder::Def(k) => match nth(schemes, k as usize) {
            None => 0,
            Some(scheme) => count(scheme),
        },
        Binder::Nothing => 0,
        Binder::Param(_) => 0,
        Binder::Var(_) => 0,
        Binder::Case(_, _) => 0,
    }
}

fn count(scheme: &ClockScheme) -> u64
    ensures { result ≡ spec.count scheme.now }
{
    larger(
        variables(&scheme.result),
        greatest(scheme.clocks.as_slice(), 0),
    )
}

/// The name that is given at this position, and 0 where none is.
fn name_at(names: &[u32], m: u32) -> u32
    ensures { result ≡ spec.name_at names.now m }
{
    match nth(names, m as usize) {
        Some(name) => *name,
        None => 0,
    }
}

/// The clock of a signature with clocks for its variables, and the names that are given for those
/// of its parameters.
#[cycle(instance)]
pub fn instance(
    alloc: Global,
    t: &ClockTerm,
    names: &[u32],
    by: &[ClockTerm],
) -> Result<ClockTerm, NoMemory>
    ensures { IfOk result (λ r. r ≡ terms.instance (spec.name_at names.now) (rules.at by.now) t.now) }
{
    match t {
        ClockTerm::Var(x) => clock_at(alloc, by, *x as usize),
        ClockTerm::On(of, m, k) => {
            let of = instance(alloc, of.get(), names, by)?;
            on(alloc, of, name_at(names, *m), *k)
        }
        ClockTerm::Pointwise => Ok(ClockTerm::Pointwise),
        ClockTerm::Arrow(all, to) => {
            let all = instances(alloc, all.as_slice(), names, by)?;
            let to = instance(alloc, to.get(), names, by)?;
            arrow(alloc, all, to)
        }
    }
}

#[cycle(instance)]
pub fn instances(
    alloc: Global,
    all: &[ClockTerm],
    names: &[u32],
    by: &[ClockTerm],
) -> Result<List<ClockTerm>, NoMemory>
    ensures { IfOk result (λ r. r ≡ map (terms.instance (spec.name_at names.now) (rules.at by.now)) all.now) }
{
    let mut done = List::new(alloc);
    for t in all {
        let t = instance(alloc, t, names, by)?;
        done.push(t)?;
    }
    Ok(done)
}

/// What is left after as many items.
pub fn past<T>(all: &[T], count: usize) -> &[T]
    ensures { result.now ≡ drop count all.now }
{
    if count <= all.len() {
        &all[count..]
    } else {
        &all[all.len()..]
    }
}

/// The clocks after as many.
pub fn copy_past(
    alloc: Global,
    all: &[ClockTerm],
    count: usize,
) -> Result<List<ClockTerm>, NoMemory>
    ensures { IfOk result (λ r. r ≡ drop count all.now) }
{
    let rest = past(all, count);
    let mut done = List::new(alloc);
    for t in rest {
        done.push(t.copy(alloc)?)?;
    }
    Ok(done)
}
