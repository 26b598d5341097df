//! Names that are not bound at their places.

ghost use Rattle.std.specs.Prelude.{◌≡◌, ℕ, ◌&&◌, not, map, List, is_some, IfOk, OnOk};
ghost use Rattle.std.specs.List.{list_any};
ghost use Rattle.scope_rules.specs.Faults as spec;
ghost use Rattle.ls_scope.specs.Unbound as unbound;

use crate::arms::{any_missing, is_there, named_arms};
use crate::asked::ClaimFault;
use crate::keys::{Keys, key};
use crate::known::Known;
use crate::numbers::Numbers;
use ls_ast::Case;
use ls_base::{List, Name, Names, NoMemory};
use ls_sig::Binder;
use scope_rules::{Claim, Site, Stand, Way};
use std::alloc::Global;

fn by_equation(way: Way) -> bool
    ensures { result ≡ spec.by_equation way }
{
    match way {
        Way::Tested => false,
        Way::Part => true,
        Way::Called(_) => true,
        Way::Clock => true,
        Way::Emitted => true,
    }
}

/// The names and lists that equations bind.
#[derive(Drop)]
pub struct Equations {
    keys: Keys,
}

impl Equations {
    /// Those of the bindings of a body.
    pub fn new(alloc: Global, sites: &[Site]) -> Result<Equations, NoMemory>
        ensures { IfOk result (λ r. unbound.Binds (spec.equation_sites sites.now) r) }
    {
        let mut keys = Keys::new(alloc);
        for s in sites {
            if by_equation(s.way) {
                keys.add(key(alloc, s.var, s.list.as_slice())?)?;
            }
        }
        Ok(Equations { keys })
    }

    /// Whether an equation of a list binds a name.
    pub fn contains(&self, alloc: Global, x: u32, list: &[(u32, u32)]) -> Result<bool, NoMemory>
        ensures { IfOk result (λ r. r ≡ unbound.bound_in self.now x list.now) }
    {
        let key = key(alloc, x, list)?;
        Ok(self.keys.place(key.as_slice()).is_some())
    }

    /// Whether an equation binds a name in a list that holds a place.
    pub fn contains_seen(
        &self,
        alloc: Global,
        x: u32,
        place: &[(u32, u32)],
    ) -> Result<bool, NoMemory>
        ensures { IfOk result (λ r. r ≡ unbound.seen_in self.now x place.now) }
    {
        Ok(self.keys.place_seen(alloc, x, place)?.is_some())
    }
}

/// Whether an initial equation stands in a list that does not bind its name.
pub fn any_unbound_start(
    alloc: Global,
    equations: &Equations,
    starts: &[(u32, List<(u32, u32)>)],
) -> Result<bool, NoMemory>
    ensures { IfOk result (λ r. r ≡ list_any (unbound.unbound_start equations.now) starts.now) }
{
    for s in starts {
        if !equations.contains(alloc, s.0, s.1.as_slice())? {
            return Ok(true);
        }
    }
    Ok(false)
}

fn misses_arm(
    alloc: Global,
    names: &Names,
    known: &Known,
    arms: &[Option<u32>],
) -> Result<bool, NoMemory>
    ensures { IfOk result (λ r. r ≡ unbound.unbound_arms names.now known.now arms.now) }
{
    let cases = named_arms(alloc, names, arms)?;
    Ok(any_missing(known, cases.as_slice()))
}

/// Whether an arm of a `match` names no constructor that is there.
pub fn any_unbound_arm(
    alloc: Global,
    names: &Names,
    known: &Known,
    all: &[List<Option<u32>>],
) -> Result<bool, NoMemory>
    ensures { IfOk result (λ r. r ≡ list_any (unbound.unbound_arms names.now known.now) all.now) }
{
    for arms in all {
        if misses_arm(alloc, names, known, arms.as_slice())? {
            return Ok(true);
        }
    }
    Ok(false)
}

fn numbers_of(alloc: Global, all: &[u32]) -> Result<Numbers, NoMemory>
    ensures { IfOk result (λ r. r ≡ all.now) }
{
    let mut done = Numbers::new(alloc);
    for x in all {
        done.push(*x)?;
    }
    Ok(done)
}

fn any_outside(states: &Numbers, targets: &[u32]) -> bool
    ensures { result ≡ list_any (λ t. not (spec.among states.now t)) targets.now }
{
    for target in targets {
        if !states.contains(*target) {
            return true;
        }
    }
    false
}

fn misses_state(alloc: Global, automaton: &(List<u32>, List<u32>)) -> Result<bool, NoMemory>
    ensures { IfOk result (λ r. r ≡ unbound.unbound_states automaton.now) }
{
    let states = numbers_of(alloc, automaton.0.as_slice())?;
    Ok(any_outside(&states, automaton.1.as_slice()))
}

/// Whether a guard of an automaton goes to no state of it.
pub fn any_unbound_state(alloc: Global, all: &[(List<u32>, List<u32>)]) -> Result<bool, NoMemory>
    ensures { IfOk result (λ r. r ≡ list_any unbound.unbound_states all.now) }
{
    for automaton in all {
        if misses_state(alloc, automaton)? {
            return Ok(true);
        }
    }
    Ok(false)
}

/// A name or a constructor that is not bound.
#[derive(Drop)]
pub struct UnboundClaims<'a> {
    pub params: &'a Numbers,
    pub equations: &'a Equations,
    pub known: &'a Known,
}

fn is_nothing(binder: Binder) -> bool
    ensures { result ≡ spec.is_nothing binder }
{
    matches!(binder, Binder::Nothing)
}

impl<'a> UnboundClaims<'a> {
    fn is_unbound(
        &self,
        alloc: Global,
        place: &[(u32, u32)],
        binder: Binder,
        x: u32,
        stand: Stand,
    ) -> Result<bool, NoMemory>
        ensures { IfOk result (λ r. r ≡ unbound.unbound_name self.now place.now binder x stand) }
    {
        match stand {
            Stand::Before => {
                if self.params.contains(x) {
                    return Ok(false);
                }
                Ok(!self.equations.contains_seen(alloc, x, place)?)
            }
            Stand::Whole => Ok(is_nothing(binder)),
            Stand::Right => Ok(is_nothing(binder)),
            Stand::At(_) => Ok(is_nothing(binder)),
            Stand::Loose => Ok(is_nothing(binder)),
            Stand::Asked => Ok(is_nothing(binder)),
            Stand::Applied(_) => Ok(is_nothing(binder)),
        }
    }
}

impl<'a> ClaimFault for UnboundClaims<'a> {
    ghost use Rattle.ls_scope.specs.Unbound as unbound;

    ghost fault = { λ it. unbound.unbound_claim it };

    fn is_fault(
        &self,
        alloc: Global,
        place: &[(u32, u32)],
        claim: &Claim,
    ) -> Result<bool, NoMemory> {
        match claim {
            Claim::Named(binder, x, stand) => self.is_unbound(alloc, place, *binder, *x, *stand),
            Claim::Constructor(c) => Ok(!is_there(self.known, Case::Of(Name(*c)))),
            Claim::Branches(cases) => Ok(any_missing(self.known, cases.as_slice())),
            Claim::Stray => Ok(false),
            Claim::Answered => Ok(false),
            Claim::Timed => Ok(false),
        }
    }
}
