//! The signals that are tested.

ghost use Rattle.std.specs.Prelude.{◌≡◌, ◌+◌, IfOk, OnOk};
ghost use Rattle.place_tables.specs.Groups as groups;
ghost use Rattle.block_tables.specs.Signals as own;
ghost use Rattle.ls_places.specs.Search as spec;

use indexmap::IndexMap;
use ls_base::{List, NoMemory};
use ls_places::{Definition, Named, Variable};
use place_tables::{arms, group, nth, starts_with};
use std::alloc::Global;

/// The first variable, of these numbers, whose list is around a place.
pub fn signal_among(p: &[(u32, u32)], all: &[Variable], numbers: &[u32]) -> Option<u32>
    ensures { result ≡ own.signal_among p.now all.now numbers.now }
{
    for k in numbers {
        if let Some(w) = nth(all, *k as usize) {
            if starts_with(p, w.list.as_slice()) {
                return Some(*k);
            }
        }
    }
    None
}

/// Whether a place is in an arm of the automaton with the clock names `m` and `m + 1`.
fn in_modes(m: u32, p: &[(u32, u32)]) -> bool
    ensures { result ≡ spec.in_modes m p.now }
{
    for a in p {
        if a.0 == m || (a.0 > 0 && a.0 - 1 == m) {
            return true;
        }
    }
    false
}

/// Whether the signal of this name that is seen at a place is bound in an arm of an automaton.
fn is_inside(
    d: &Definition,
    vars: &IndexMap<u32, List<u32>>,
    m: u32,
    p: &[(u32, u32)],
    x: u32,
) -> bool
    requires { own.AreVariables vars.now d.now }
    ensures { result ≡ spec.in_modes m (spec.signal_list d.now x p.now) }
{
    let all = d.places.vars.as_slice();
    match signal_among(p, all, group(vars, x)) {
        None => false,
        Some(k) => match nth(all, k as usize) {
            None => false,
            Some(w) => in_modes(m, w.list.as_slice()),
        },
    }
}

/// The first of these signals, seen at a place, that is bound outside an automaton.
fn first_outside(
    d: &Definition,
    vars: &IndexMap<u32, List<u32>>,
    m: u32,
    p: &[(u32, u32)],
    all: &[u32],
) -> Option<u32>
    requires { own.AreVariables vars.now d.now }
    ensures { result ≡ spec.first_outside d.now m p.now all.now }
{
    for x in all {
        if !is_inside(d, vars, m, p, *x) {
            return Some(*x);
        }
    }
    None
}

/// The test of a `present` in an arm of the block with the clock name `m`, if it is the first.
fn add_test(
    d: &Definition,
    vars: &IndexMap<u32, List<u32>>,
    m: u32,
    p: &[(u32, u32)],
    all: &[u32],
    tested: &mut IndexMap<u32, u32>,
) -> Result<(), NoMemory>
    requires { own.AreVariables vars.now d.now }
    ensures { OnOk result (own.Tests tested.old (own.test_in d.now m p.now all.now) tested.new) }
{
    if tested.get(&m).is_some() {
        return Ok(());
    }
    match first_outside(d, vars, m, p, all) {
        None => Ok(()),
        Some(x) => match tested.insert(m, x) {
            Ok(_) => Ok(()),
            Err(_) => Err(NoMemory),
        },
    }
}

/// The same in an arm that the clock name `m` gives: it is the first or the second of its
/// automaton.
fn add_arm(
    d: &Definition,
    vars: &IndexMap<u32, List<u32>>,
    m: u32,
    p: &[(u32, u32)],
    all: &[u32],
    tested: &mut IndexMap<u32, u32>,
) -> Result<(), NoMemory>
    requires { own.AreVariables vars.now d.now }
    ensures { OnOk result (own.Tests tested.old (own.test_around d.now m p.now all.now) tested.new) }
{
    add_test(d, vars, m, p, all, tested)?;
    if m > 0 {
        add_test(d, vars, m - 1, p, all, tested)?;
    }
    Ok(())
}

/// The tests of a `present`, for each automaton around it.
fn add_tests(
    d: &Definition,
    vars: &IndexMap<u32, List<u32>>,
    p: &[(u32, u32)],
    all: &[u32],
    tested: &mut IndexMap<u32, u32>,
) -> Result<(), NoMemory>
    requires { own.AreVariables vars.now d.now }
    ensures { OnOk result (own.Tests tested.old (own.tests_in d.now p.now all.now p.now) tested.new) }
{
    for a in p {
        add_arm(d, vars, a.0, p, all, tested)?;
    }
    Ok(())
}

fn add_named(
    alloc: Global,
    d: &Definition,
    vars: &IndexMap<u32, List<u32>>,
    named: &Named,
    tested: &mut IndexMap<u32, u32>,
) -> Result<(), NoMemory>
    requires { own.AreVariables vars.now d.now }
    ensures { OnOk result (own.Tests tested.old (own.tests_by d.now named.now) tested.new) }
{
    match named {
        Named::Present(all, place) => {
            let p = arms(alloc, place.as_slice())?;
            add_tests(d, vars, p.as_slice(), all.as_slice(), tested)
        }
        Named::Clock(_) => Ok(()),
        Named::Match(_, _, _) => Ok(()),
        Named::Active(_, _) => Ok(()),
        Named::Tested(_, _) => Ok(()),
    }
}

/// For each automaton, the first signal from outside that a `present` in an arm of it tests.
pub fn tested_outside(
    alloc: Global,
    d: &Definition,
    vars: &IndexMap<u32, List<u32>>,
) -> Result<IndexMap<u32, u32>, NoMemory>
    requires { own.AreVariables vars.now d.now }
    ensures { IfOk result (λ r. own.AreTested r d.now) }
{
    let mut done = IndexMap::new(alloc);
    for named in d.places.names.as_slice() {
        add_named(alloc, d, vars, named, &mut done)?;
    }
    Ok(done)
}
