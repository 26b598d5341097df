//! Names that are bound twice.

ghost use Rattle.std.specs.Prelude.{◌≡◌, ℕ, [], ◌∷◌, ◌++◌, nat_eq, cond, Some, None, Vec, List, is_some, option_copied, IfOk, OnOk};
ghost use Rattle.std.specs.Cmp.Lexicographic.{pointwise};
ghost use Rattle.std.specs.Global.{Global};
ghost use Rattle.std.specs.List.{list_any};
ghost use Rattle.scope_rules.specs.Places as places;
ghost use Rattle.scope_rules.specs.Faults as spec;
ghost use Rattle.ls_scope.specs.Last as ending;

use crate::arms::{named_arms, repeated_case};
use crate::asked::{ClaimFault, any_claim};
use crate::keys::{Keys, key};
use crate::numbers::Numbers;
use crate::variables::Variables;
use indexmap::IndexMap;
use ls_base::{List, Names, NoMemory, NoteCopy};
use scope_rules::{Asked, Claim, Site};
use std::alloc::Global;

fn is_in(seen: &Numbers, x: &u32) -> bool
    ensures { result ≡ spec.among seen.now x.now }
{
    seen.contains(*x)
}

fn put_in(x: &u32, seen: &mut Numbers) -> Result<(), NoMemory>
    ensures { OnOk result (seen.new ≡ seen.old ++ x.now ∷ []) }
{
    seen.push(*x)
}

/// Whether a number stands twice.
pub fn repeated(alloc: Global, all: &[u32]) -> Result<bool, NoMemory>
    ensures { IfOk result (λ r. r ≡ spec.repeated all.now) }
{
    let mut seen = Numbers::new(alloc);
    for x in all {
        if is_in(&seen, x) {
            return Ok(true);
        }
        put_in(x, &mut seen)?;
    }
    Ok(false)
}

/// Whether a name of the parameters is bound again.
pub fn hides_param(params: &Numbers, sites: &[Site]) -> bool
    ensures { result ≡ list_any (λ s. spec.among params.now s.var) sites.now }
{
    for s in sites {
        if params.contains(s.var) {
            return true;
        }
    }
    false
}

// Whether q is in a later arm of a block that has p in one of its arms.
fn later(p: &[(u32, u32)], q: &[(u32, u32)]) -> bool
    ensures { result ≡ places.later p.now q.now }
{
    match p {
        [] => false,
        [a, p @ ..] => match q {
            [] => false,
            [b, q @ ..] => a.0 == b.0 && (a.1 < b.1 || (a.1 == b.1 && later(p, q))),
        },
    }
}

// Whether the last binding under a key does not stand before this place in an earlier arm.
fn follows(last: Option<&List<(u32, u32)>>, inner: &[(u32, u32)]) -> bool
    ensures { result ≡ ending.after_place (option_copied last.entry) inner.now }
{
    match last {
        None => false,
        Some(p) => !later(p.as_slice(), inner),
    }
}

// Puts where the last binding under a key stands.
fn put(
    last: &mut IndexMap<Vec<u32>, List<(u32, u32)>>,
    key: Vec<u32>,
    inner: List<(u32, u32)>,
) -> Result<(), NoMemory>
    ensures { OnOk result ((k : Vec ℕ Global) → ending.told last.new.entries k.items ≡ cond (pointwise nat_eq key.items k.items) (Some inner) (ending.told last.old.entries k.items)) }
{
    match last.insert(key, inner) {
        Ok(_) => Ok(()),
        Err(_) => Err(NoMemory),
    }
}

/// Whether some name is bound and bound again in the same list, and not in a later arm of the same
/// block. The bindings are in the order of the text, so the last one of each name and list tells.
pub fn bound_again(alloc: Global, all: &[Site]) -> Result<bool, NoMemory>
    ensures { IfOk result (λ r. r ≡ spec.any_two spec.again all.now) }
{
    let mut last: IndexMap<Vec<u32>, List<(u32, u32)>> = IndexMap::new(alloc);
    for s in all {
        let key = key(alloc, s.var, s.list.as_slice())?;
        if follows(last.get(key.as_slice()), s.inner.as_slice()) {
            return Ok(true);
        }
        let inner = s.inner.copy(alloc)?;
        put(&mut last, key, inner)?;
    }
    Ok(false)
}

#[tactic(auto, using(crate::proofs::TwiceLaws::above_front, crate::proofs::TwiceLaws::above_empty))]
fn bound_above(alloc: Global, vars: &Variables, s: &Site) -> Result<bool, NoMemory>
    ensures { IfOk result (λ r. r ≡ list_any (spec.above s.now) vars.now) }
{
    let list = s.list.as_slice();
    if list.is_empty() {
        return Ok(false);
    }
    let outer = &list[..list.len() - 1];
    Ok(vars.place_seen(alloc, s.var, outer)?.is_some())
}

/// Whether some name is bound in a list and in another around it.
pub fn nested(alloc: Global, vars: &Variables) -> Result<bool, NoMemory>
    ensures { IfOk result (λ r. r ≡ list_any (λ s. list_any (spec.above s) vars.now) vars.now) }
{
    for s in vars.as_slice() {
        if bound_above(alloc, vars, s)? {
            return Ok(true);
        }
    }
    Ok(false)
}

/// Whether a name has two initial equations in one list.
pub fn started_twice(alloc: Global, starts: &[(u32, List<(u32, u32)>)]) -> Result<bool, NoMemory>
    ensures { IfOk result (λ r. r ≡ spec.any_two spec.same_start starts.now) }
{
    let mut seen = Keys::new(alloc);
    for s in starts {
        let key = key(alloc, s.0, s.1.as_slice())?;
        if seen.place(key.as_slice()).is_some() {
            return Ok(true);
        }
        seen.add(key)?;
    }
    Ok(false)
}

fn repeats_arm(alloc: Global, names: &Names, arms: &[Option<u32>]) -> Result<bool, NoMemory>
    ensures { IfOk result (λ r. r ≡ spec.repeated_case (spec.arm_cases_named names.now arms.now)) }
{
    let cases = named_arms(alloc, names, arms)?;
    repeated_case(alloc, cases.as_slice())
}

/// Whether a `match` has two arms of one constructor.
pub fn repeated_arms(
    alloc: Global,
    names: &Names,
    all: &[List<Option<u32>>],
) -> Result<bool, NoMemory>
    ensures { IfOk result (λ r. r ≡ list_any (λ a. spec.repeated_case (spec.arm_cases_named names.now a)) all.now) }
{
    for arms in all {
        if repeats_arm(alloc, names, arms.as_slice())? {
            return Ok(true);
        }
    }
    Ok(false)
}

/// Whether an automaton has two states of one name.
pub fn repeated_states(alloc: Global, all: &[(List<u32>, List<u32>)]) -> Result<bool, NoMemory>
    ensures { IfOk result (λ r. r ≡ list_any (λ (a : List ℕ × List ℕ). spec.repeated a.0) all.now) }
{
    for automaton in all {
        if repeated(alloc, automaton.0.as_slice())? {
            return Ok(true);
        }
    }
    Ok(false)
}

/// A `merge` with two branches of one constructor.
#[derive(Drop)]
pub struct TwiceClaims;

impl ClaimFault for TwiceClaims {
    ghost use Rattle.scope_rules.specs.Faults as spec;

    ghost fault = { λ it. spec.twice_claim };

    fn is_fault(
        &self,
        alloc: Global,
        _place: &[(u32, u32)],
        claim: &Claim,
    ) -> Result<bool, NoMemory> {
        match claim {
            Claim::Branches(cases) => repeated_case(alloc, cases.as_slice()),
            Claim::Named(_, _, _) => Ok(false),
            Claim::Constructor(_) => Ok(false),
            Claim::Stray => Ok(false),
            Claim::Answered => Ok(false),
            Claim::Timed => Ok(false),
        }
    }
}
