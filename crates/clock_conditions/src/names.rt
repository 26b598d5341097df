//! The names that a clock mentions, and where they are bound.

ghost use Rattle.std.specs.Prelude.{◌≡◌, ◌++◌, map, IfOk, OnOk};
ghost use Rattle.std.specs.Option.{option_copied};
ghost use Rattle.clock_conditions.specs.Bounds as spec;
ghost use Rattle.clock_conditions.specs.Every.{every};
ghost use Rattle.clock_rules.specs.Rules as rules;
ghost use Rattle.clock_rules.specs.Terms.{names_in};
ghost use Rattle.ls_places.specs.Places as places;
ghost use Rattle.ls_places.specs.Search.{nth, starts_with};
ghost use Rattle.tree_notes.specs.Order.{joined};

use ls_ast::Mark;
use ls_base::{List, NoMemory, NoteCopy};
use ls_places::{Frame, Named, Variable};
use ls_terms::ClockTerm;
use std::alloc::Global;

/// The item of a number.
pub fn nth<T>(all: &[T], k: usize) -> Option<&T>
    ensures { option_copied result ≡ nth all.now k }
{
    all.get(k)
}

/// Adds the names that a clock is sampled on.
#[cycle(names)]
pub fn add_names(t: &ClockTerm, list: &mut List<u32>) -> Result<(), NoMemory>
    ensures { OnOk result (list.new ≡ list.old ++ names_in t.now) }
{
    match t {
        ClockTerm::Var(_) => Ok(()),
        ClockTerm::On(of, m, _) => {
            list.push(*m)?;
            add_names(of.get(), list)
        }
        ClockTerm::Pointwise => Ok(()),
        ClockTerm::Arrow(all, to) => {
            add_all_names(all.as_slice(), list)?;
            add_names(to.get(), list)
        }
    }
}

#[cycle(names)]
fn add_all_names(all: &[ClockTerm], list: &mut List<u32>) -> Result<(), NoMemory>
    ensures { OnOk result (list.new ≡ list.old ++ joined (map names_in all.now)) }
{
    for t in all {
        add_names(t, list)?;
    }
    Ok(())
}

/// The names that a clock is sampled on.
pub fn names_of(alloc: Global, t: &ClockTerm) -> Result<List<u32>, NoMemory>
    ensures { IfOk result (λ r. r ≡ names_in t.now) }
{
    let mut list = List::new(alloc);
    add_names(t, &mut list)?;
    Ok(list)
}

fn same_arm(a: (u32, u32), b: (u32, u32)) -> bool
    ensures { result ≡ spec.same_arm a b }
{
    a.0 == b.0 && a.1 == b.1
}

/// Whether some arms begin with others.
pub fn begins_with(arms: &[(u32, u32)], with: &[(u32, u32)]) -> bool
    ensures { result ≡ starts_with arms.now with.now }
{
    for (at, arm) in with.iter().enumerate() {
        match arms.get(at) {
            None => return false,
            Some(other) => {
                if !same_arm(*other, *arm) {
                    return false;
                }
            }
        }
    }
    true
}

/// The arms among what is around a place.
fn arms(alloc: Global, place: &[Frame]) -> Result<List<(u32, u32)>, NoMemory>
    ensures { IfOk result (λ r. r ≡ places.arms place.now) }
{
    let mut done = List::new(alloc);
    for frame in place {
        match frame {
            Frame::Reset(_) => {}
            Frame::Arm(m, j) => done.push((*m, *j))?,
        }
    }
    Ok(done)
}

/// The arms around what binds a clock name.
fn list_of(alloc: Global, vars: &[Variable], named: &Named) -> Result<List<(u32, u32)>, NoMemory>
    ensures { IfOk result (λ r. r ≡ spec.list_of vars.now named.now) }
{
    match named {
        Named::Clock(x) => match nth(vars, *x as usize) {
            None => Ok(List::new(alloc)),
            Some(variable) => variable.list.copy(alloc),
        },
        Named::Match(_, _, place) => arms(alloc, place.as_slice()),
        Named::Present(_, place) => arms(alloc, place.as_slice()),
        Named::Active(_, place) => arms(alloc, place.as_slice()),
        Named::Tested(_, place) => arms(alloc, place.as_slice()),
    }
}

/// The arms around what binds each clock name that is no parameter.
pub fn lists(
    alloc: Global,
    vars: &[Variable],
    names: &[Named],
) -> Result<List<List<(u32, u32)>>, NoMemory>
    ensures { IfOk result (λ r. r ≡ map (spec.list_of vars.now) names.now) }
{
    let mut done = List::new(alloc);
    for named in names {
        done.push(list_of(alloc, vars, named)?)?;
    }
    Ok(done)
}

/// Whether a clock name is bound in a list around some arms. `lists` has the arms around what
/// binds each name from the number `first` on.
fn is_around(arms: &[(u32, u32)], m: u32, first: usize, lists: &[List<(u32, u32)>]) -> bool
    ensures { result ≡ spec.is_around arms.now first lists.now m }
{
    let at = m as usize;
    if at < first {
        return true;
    }
    match nth(lists, at - first) {
        None => true,
        Some(list) => begins_with(arms, list.as_slice()),
    }
}

/// Whether all these names are bound in lists around some arms.
pub fn are_around(
    arms: &[(u32, u32)],
    names: &[u32],
    first: usize,
    lists: &[List<(u32, u32)>],
) -> bool
    ensures { result ≡ every (spec.is_around arms.now first lists.now) names.now }
{
    for m in names {
        if !is_around(arms, *m, first, lists) {
            return false;
        }
    }
    true
}

fn is_clock(mark: Mark) -> bool
    ensures { result ≡ rules.is_clock_mark mark }
{
    match mark {
        Mark::Clock => true,
        Mark::Unknown => false,
        Mark::Data => false,
        Mark::Signal => false,
        Mark::Comb => false,
        Mark::Seq => false,
    }
}

/// Whether the parameter of this number is a clock name.
pub fn is_clock_parameter(marks: &[Mark], m: u32) -> bool
    ensures { result ≡ spec.is_clock_parameter marks.now m }
{
    match nth(marks, m as usize) {
        None => false,
        Some(mark) => is_clock(*mark),
    }
}

/// Whether all these names are those of Clock parameters.
pub fn are_public(marks: &[Mark], names: &[u32]) -> bool
    ensures { result ≡ every (spec.is_clock_parameter marks.now) names.now }
{
    for m in names {
        if !is_clock_parameter(marks, *m) {
            return false;
        }
    }
    true
}
