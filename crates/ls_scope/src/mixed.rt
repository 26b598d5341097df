//! Names that are used in two ways, or as what they are not.

ghost use Rattle.std.specs.Prelude.{◌≡◌, ℕ, ◌++◌, map, IfOk, OnOk};
ghost use Rattle.std.specs.List.{list_any};
ghost use Rattle.scope_rules.specs.Places as places;
ghost use Rattle.scope_rules.specs.Faults as spec;
ghost use Rattle.ls_scope.specs.Sight.{sight_of};
ghost use Rattle.ls_scope.specs.Mixed as mixed;

use crate::asked::ClaimFault;
use crate::claims::{is_function, passable};
use crate::contents::{add_names, is_name};
use crate::known::Known;
use crate::marks::{Marks, mark_of};
use crate::sight::Sight;
use crate::variables::Variables;
use ls_ast::{Mark, Pat};
use ls_base::{List, NoMemory, NoteCopy};
use ls_sig::Binder;
use scope_rules::{Claim, Earlier, Site, Stand, Way};
use std::alloc::Global;

fn add_arms(more: &[(u32, u32)], done: &mut List<(u32, u32)>) -> Result<(), NoMemory>
    ensures { OnOk result (done.new ≡ done.old ++ more.now) }
{
    for arm in more {
        done.push(*arm)?;
    }
    Ok(())
}

fn place_of(alloc: Global, s: &Site) -> Result<List<(u32, u32)>, NoMemory>
    ensures { IfOk result (λ r. r ≡ s.now.list ++ s.now.inner) }
{
    let mut place = s.list.copy(alloc)?;
    add_arms(s.inner.as_slice(), &mut place)?;
    Ok(place)
}

/// Whether a binding is that of a signal.
pub fn is_signal(alloc: Global, sight: &Sight<'_>, s: &Site) -> Result<bool, NoMemory>
    ensures { IfOk result (λ r. r ≡ spec.is_signal (sight_of sight.now) s.now) }
{
    match s.way {
        Way::Emitted => Ok(true),
        Way::Called(x) => {
            let place = place_of(alloc, s)?;
            sight.answers(alloc, place.as_slice(), x)
        }
        Way::Part => Ok(false),
        Way::Clock => Ok(false),
        Way::Tested => Ok(false),
    }
}

/// Of each variable, whether it is a signal.
pub fn signals_of(alloc: Global, sight: &Sight<'_>) -> Result<List<bool>, NoMemory>
    ensures { IfOk result (λ r. r ≡ map (spec.is_signal (sight_of sight.now)) sight.now.vars.now) }
{
    let mut done = List::new(alloc);
    for v in sight.vars.as_slice() {
        done.push(is_signal(alloc, sight, v)?)?;
    }
    Ok(done)
}

fn signal_at(
    alloc: Global,
    vars: &Variables,
    signals: &[bool],
    x: u32,
    list: &[(u32, u32)],
) -> Result<Option<bool>, NoMemory>
    ensures { IfOk result (λ r. r ≡ mixed.signal_at vars.now signals.now x list.now) }
{
    match vars.place(alloc, x, list)? {
        Some(k) => match signals.get(k as usize) {
            Some(signal) => Ok(Some(*signal)),
            None => Ok(None),
        },
        None => Ok(None),
    }
}

fn differs(alloc: Global, sight: &Sight<'_>, signals: &[bool], s: &Site) -> Result<bool, NoMemory>
    ensures { IfOk result (λ r. r ≡ mixed.mixed_site (sight_of sight.now) signals.now s.now) }
{
    match signal_at(alloc, sight.vars, signals, s.var, s.list.as_slice())? {
        Some(signal) => Ok(signal != is_signal(alloc, sight, s)?),
        None => Ok(false),
    }
}

/// Whether a name is bound as a signal and as a variable.
pub fn any_mixed_site(
    alloc: Global,
    sight: &Sight<'_>,
    signals: &[bool],
    sites: &[Site],
) -> Result<bool, NoMemory>
    ensures { IfOk result (λ r. r ≡ list_any (mixed.mixed_site (sight_of sight.now) signals.now) sites.now) }
{
    for s in sites {
        if differs(alloc, sight, signals, s)? {
            return Ok(true);
        }
    }
    Ok(false)
}

fn starts_signal(
    alloc: Global,
    vars: &Variables,
    signals: &[bool],
    s: &(u32, List<(u32, u32)>),
) -> Result<bool, NoMemory>
    ensures { IfOk result (λ r. r ≡ mixed.mixed_start vars.now signals.now s.now) }
{
    match signal_at(alloc, vars, signals, s.0, s.1.as_slice())? {
        Some(signal) => Ok(signal),
        None => Ok(false),
    }
}

/// Whether a signal has an initial equation.
pub fn any_mixed_start(
    alloc: Global,
    vars: &Variables,
    signals: &[bool],
    starts: &[(u32, List<(u32, u32)>)],
) -> Result<bool, NoMemory>
    ensures { IfOk result (λ r. r ≡ list_any (mixed.mixed_start vars.now signals.now) starts.now) }
{
    for s in starts {
        if starts_signal(alloc, vars, signals, s)? {
            return Ok(true);
        }
    }
    Ok(false)
}

fn add_singles(single: bool, names: &[u32], done: &mut List<bool>) -> Result<(), NoMemory>
    ensures { OnOk result (done.new ≡ done.old ++ map (λ (x : ℕ). single) names.now) }
{
    for _name in names {
        done.push(single)?;
    }
    Ok(())
}

/// Which names in the parameters are whole parameters, and not in a tuple.
pub fn singles_of(alloc: Global, params: &[Pat]) -> Result<List<bool>, NoMemory>
    ensures { IfOk result (λ r. r ≡ spec.singles params.now) }
{
    let mut done = List::new(alloc);
    for pat in params {
        let mut names = List::new(alloc);
        add_names(pat, &mut names)?;
        add_singles(is_name(pat), names.as_slice(), &mut done)?;
    }
    Ok(done)
}

fn same_mark(a: Mark, b: Mark) -> bool
    ensures { result ≡ spec.same_mark a b }
{
    match a {
        Mark::Clock => matches!(b, Mark::Clock),
        Mark::Signal => matches!(b, Mark::Signal),
        Mark::Comb => matches!(b, Mark::Comb),
        Mark::Seq => matches!(b, Mark::Seq),
        Mark::Data => false,
        Mark::Unknown => false,
    }
}

/// Whether a parameter of this mark is a signal.
pub fn is_signal_mark(mark: Mark) -> bool
    ensures { result ≡ spec.is_signal_mark mark }
{
    same_mark(Mark::Signal, mark)
}

fn gives_other(single: bool, mark: Mark, stand: Stand) -> bool
    ensures { result ≡ spec.gives_other single mark stand }
{
    if !single {
        return true;
    }
    match mark_of(stand) {
        Some(given) => !same_mark(mark, given),
        None => false,
    }
}

fn wrong_param(single: bool, mark: Mark, stand: Stand) -> bool
    ensures { result ≡ spec.wrong_param single mark stand }
{
    match stand {
        Stand::At(position) => match position {
            Mark::Data => is_function(mark) || is_signal_mark(mark),
            Mark::Clock => gives_other(single, mark, stand),
            Mark::Signal => gives_other(single, mark, stand),
            Mark::Comb => gives_other(single, mark, stand),
            Mark::Seq => gives_other(single, mark, stand),
            Mark::Unknown => gives_other(single, mark, stand),
        },
        Stand::Right => is_function(mark) || is_signal_mark(mark),
        Stand::Loose => is_signal_mark(mark),
        Stand::Whole => is_function(mark),
        Stand::Before => true,
        Stand::Asked => gives_other(single, mark, stand),
        Stand::Applied(_) => gives_other(single, mark, stand),
    }
}

fn same_place(p: &[(u32, u32)], q: &[(u32, u32)]) -> bool
    ensures { result ≡ places.same_place p.now q.now }
{
    match p {
        [] => match q {
            [] => true,
            [_, ..] => false,
        },
        [a, p @ ..] => match q {
            [] => false,
            [b, q @ ..] => a.0 == b.0 && (a.1 == b.1 && same_place(p, q)),
        },
    }
}

fn is_clock(way: Way) -> bool
    ensures { result ≡ spec.clock_way way }
{
    matches!(way, Way::Clock)
}

fn wrong_variable(signal: bool, v: &Site, place: &[(u32, u32)], stand: Stand) -> bool
    ensures { result ≡ spec.wrong_variable signal v.now place.now stand }
{
    match stand {
        Stand::At(position) => match position {
            Mark::Clock => !(is_clock(v.way) && same_place(v.list.as_slice(), place)),
            Mark::Signal => !signal,
            Mark::Comb => true,
            Mark::Seq => true,
            Mark::Data => signal,
            Mark::Unknown => signal,
        },
        Stand::Applied(_) => false,
        Stand::Asked => false,
        Stand::Whole => false,
        Stand::Right => signal,
        Stand::Loose => signal,
        Stand::Before => signal,
    }
}

fn wrong_function(e: &Earlier) -> bool
    ensures { result ≡ spec.wrong_function e.now }
{
    e.marks.len() == 0 || !passable(e, 0)
}

fn wrong_def(e: &Earlier, stand: Stand) -> bool
    ensures { result ≡ spec.wrong_def e.now stand }
{
    match stand {
        Stand::At(position) => match position {
            Mark::Clock => true,
            Mark::Signal => true,
            Mark::Comb => wrong_function(e),
            Mark::Seq => wrong_function(e),
            Mark::Data => false,
            Mark::Unknown => false,
        },
        Stand::Right => false,
        Stand::Loose => false,
        Stand::Whole => false,
        Stand::Before => false,
        Stand::Asked => false,
        Stand::Applied(_) => false,
    }
}

fn in_an_arm(place: &[(u32, u32)], stand: Stand) -> bool
    ensures { result ≡ spec.in_an_arm place.now stand }
{
    matches!(stand, Stand::At(Mark::Clock)) && !place.is_empty()
}

/// A name that stands as it may not, or an argument or a call that does.
#[derive(Drop)]
pub struct MixedClaims<'a> {
    pub vars: &'a Variables,
    /// Of each variable, whether it is a signal.
    pub signals: &'a [bool],
    /// Of each name in the parameters, whether it is a whole parameter.
    pub singles: &'a [bool],
    pub marks: &'a Marks,
    pub known: &'a Known,
}

impl<'a> MixedClaims<'a> {
    fn wrong_var(&self, place: &[(u32, u32)], k: u32, stand: Stand) -> bool
        ensures { result ≡ mixed.wrong_var self.now place.now k stand }
    {
        match self.signals.get(k as usize) {
            Some(signal) => match self.vars.as_slice().get(k as usize) {
                Some(v) => wrong_variable(*signal, v, place, stand),
                None => false,
            },
            None => false,
        }
    }

    fn wrong_use(&self, place: &[(u32, u32)], binder: Binder, stand: Stand) -> bool
        ensures { result ≡ mixed.wrong_use self.now place.now binder stand }
    {
        match binder {
            Binder::Var(k) => self.wrong_var(place, k, stand),
            Binder::Param(k) => {
                in_an_arm(place, stand)
                    || match self.singles.get(k as usize) {
                        Some(single) => wrong_param(*single, self.marks.mark(k), stand),
                        None => false,
                    }
            }
            Binder::Def(k) => match self.known.def(k) {
                Some(e) => wrong_def(e, stand),
                None => false,
            },
            Binder::Nothing => false,
            Binder::Case(_, _) => false,
        }
    }
}

impl<'a> ClaimFault for MixedClaims<'a> {
    ghost use Rattle.ls_scope.specs.Mixed as mixed;

    ghost fault = { λ it. mixed.mixed_claim it };

    fn is_fault(
        &self,
        _alloc: Global,
        place: &[(u32, u32)],
        claim: &Claim,
    ) -> Result<bool, NoMemory> {
        match claim {
            Claim::Named(binder, _, stand) => Ok(self.wrong_use(place, *binder, *stand)),
            Claim::Stray => Ok(true),
            Claim::Answered => Ok(true),
            Claim::Constructor(_) => Ok(false),
            Claim::Branches(_) => Ok(false),
            Claim::Timed => Ok(false),
        }
    }
}
