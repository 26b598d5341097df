//! Where variables, signals and automata are on, and what was at the previous instant.

ghost use Rattle.std.specs.Prelude.{◌≡◌, ◌+◌, ◌<◌, ◌^◌, IfOk, None};
ghost use Rattle.std.specs.Option.{option_copied};
ghost use Rattle.kahn_exprs.specs.Body as spec;
ghost use Rattle.kahn_exprs.specs.Memory as own;
ghost use Rattle.kahn_model.specs.Rows as rows;
ghost use Rattle.ls_places.specs.Search as search;

use crate::body::{Body, active, again, again_too, in_arms, on, read};
use kahn_cells::cells::copy_known;
use kahn_cells::clocks::bare;
use kahn_cells::search::{arms, binds, nth};
use kahn_cells::values::nil;
use kahn_model::Cell;
use ls_ast::Pat;
use ls_base::NoMemory;
use ls_places::{Frame, Key, Right, Site};
use ls_sig::Binder;
use ls_terms::ClockTerm;
use std::alloc::Global;

/// What has a previous instant.
#[derive(Clone, Copy)]
pub enum Pace<'a> {
    Clock(&'a ClockTerm),
    /// A variable, on its own clock.
    Variable(u32),
    /// An automaton with this first clock name, at its place.
    Mode(u32, &'a [Frame]),
}

/// Whether the clock of a whole expression is on, without its outermost samplings, `n` of them.
fn whole_on(body: &Body, n: usize, k: u32, i: usize) -> Option<bool>
    ensures { result ≡ own.whole_on body.now n k i }
{
    match nth(body.def.definition().places.exprs.as_slice(), k as usize) {
        None => Some(false),
        Some(whole) => on(body, bare(n, &whole.expr.note.ck), i),
    }
}

/// Whether the clock of a variable is on, by an equation for it.
fn site_here(body: &Body, s: &Site, i: usize) -> Option<bool>
    ensures { result ≡ own.site_here body.now s.now i }
{
    match &s.right {
        Right::Part(_, k) => whole_on(body, s.inner.len(), *k, i),
        Right::Whole(k) => whole_on(body, s.inner.len(), *k, i),
        Right::Pattern(_, _) => active(body, s.place.as_slice(), i),
    }
}

/// Whether a variable's clock is on.
pub fn variable_here(body: &Body, x: u32, i: usize) -> Option<bool>
    ensures { result ≡ spec.variable_here body.now x i }
{
    match body.def.first_site(x) {
        None => Some(false),
        Some(s) => site_here(body, s, i),
    }
}

/// The clock of the parameter that binds a name.
fn param_clock<'a>(x: u32, params: &[Pat], clocks: &'a [ClockTerm]) -> Option<&'a ClockTerm>
    ensures { option_copied result ≡ search.param_clock x params.now clocks.now }
{
    let mut rest = clocks;
    for p in params {
        match rest {
            [] => return None,
            [ck, more @ ..] => {
                if binds(p, x) {
                    return Some(ck);
                }
                rest = more;
            }
        }
    }
    None
}

/// Whether a clock is on, if there is one.
fn clock_on(body: &Body, ck: Option<&ClockTerm>, i: usize) -> Option<bool>
    ensures { result ≡ own.clock_on body.now (option_copied ck.entry) i }
{
    match ck {
        None => Some(false),
        Some(ck) => on(body, ck, i),
    }
}

/// Whether the clock of a parameter is on, by a name that it binds.
fn parameter_on(body: &Body, x: u32, i: usize) -> Option<bool>
    ensures { result ≡ own.signal_clock body.now x None i }
{
    let def = body.def.definition();
    let ck = param_clock(x, def.params.as_slice(), def.clocks.as_slice());
    clock_on(body, ck, i)
}

/// Whether the clock of a signal is on: of the variable of this number, or of a parameter.
fn signal_on(body: &Body, x: u32, at: Option<u32>, i: usize) -> Option<bool>
    ensures { result ≡ own.signal_clock body.now x at i }
{
    match at {
        Some(k) => variable_here(body, k, i),
        None => parameter_on(body, x, i),
    }
}

/// The arms of a place, without those around the list that binds the variable of this number.
fn arms_between<'a>(body: &Body, at: Option<u32>, p: &'a [(u32, u32)]) -> &'a [(u32, u32)]
    ensures { result.now ≡ own.arms_between body.now at p.now }
{
    let vars = body.def.definition().places.vars.as_slice();
    match at {
        None => p,
        Some(k) => match nth(vars, k as usize) {
            None => p,
            Some(w) => arms_within(w.list.as_slice(), p),
        },
    }
}

/// The arms after the first.
fn inner_arms(p: &[(u32, u32)]) -> &[(u32, u32)]
    ensures { result.now ≡ own.inner_arms p.now }
{
    match p {
        [] => p,
        [_, rest @ ..] => rest,
    }
}

/// The arms of a place, without so many outermost ones as there are around a list.
fn arms_within<'a>(list: &[(u32, u32)], p: &'a [(u32, u32)]) -> &'a [(u32, u32)]
    ensures { result.now ≡ search.arms_within list.now p.now }
{
    let mut rest = p;
    for _a in list {
        rest = inner_arms(rest);
    }
    rest
}

/// Whether the signal of this name that is seen at a place is on there.
pub fn signal_here(
    alloc: Global,
    body: &Body,
    x: u32,
    place: &[Frame],
    i: usize,
) -> Result<Option<bool>, NoMemory>
    ensures { IfOk result (λ r. r ≡ own.signal_here body.now x place.now i) }
{
    let p = arms(alloc, place)?;
    let inner = p.as_slice();
    let at = body.def.signal_at(x, inner);
    let now = signal_on(body, x, at, i);
    Ok(in_arms(body, now, arms_between(body, at, inner), i))
}

/// Whether an automaton is on.
pub fn mode_here(
    alloc: Global,
    body: &Body,
    m: u32,
    place: &[Frame],
    i: usize,
) -> Result<Option<bool>, NoMemory>
    requires { m + 1 < 2 ^ 32 }
    ensures { IfOk result (λ r. r ≡ spec.mode_here body.now m place.now i) }
{
    match body.def.mode_clock(m) {
        Some(ck) => Ok(on(body, ck, i)),
        None => match body.def.tested_outside(m) {
            Some(x) => signal_here(alloc, body, x, place, i),
            None => Ok(active(body, place, i)),
        },
    }
}

fn paced(alloc: Global, body: &Body, pace: Pace, i: usize) -> Result<Option<bool>, NoMemory>
    requires { own.IsNumbered pace }
    ensures { IfOk result (λ r. r ≡ own.paced body.now pace.entry i) }
{
    match pace {
        Pace::Clock(ck) => Ok(on(body, ck, i)),
        Pace::Variable(x) => Ok(variable_here(body, x, i)),
        Pace::Mode(m, place) => mode_here(alloc, body, m, place, i),
    }
}

/// Whether a place restarts, or what stands there where a variable of these numbers is true.
#[tactic(auto, using(crate::proofs::Around::too_is))]
pub fn restarts(body: &Body, place: &[Frame], too: &[u32], i: usize) -> Option<bool>
    ensures { result ≡ own.restarts body.now place.now too.now i }
{
    again_too(body, again(body, place, i), too, i)
}

/// The previous instant at a place: the last one before `i` at which it was present, with no
/// restart since, of the place or by the variables of these numbers.
#[tactic(auto, using(crate::proofs::Back::unknown_at, crate::proofs::Back::restart_at, crate::proofs::Back::unknown_before_at, crate::proofs::Back::found_at, crate::proofs::Back::back_at))]
pub fn previous(
    alloc: Global,
    body: &Body,
    pace: Pace,
    place: &[Frame],
    too: &[u32],
    i: usize,
) -> Result<Option<Option<usize>>, NoMemory>
    requires { own.IsNumbered pace }
    ensures { IfOk result (λ r. r ≡ rows.previous (own.paced body.now pace.entry) (own.restarts body.now place.now too.now) i) }
{
    for back in 0..i {
        let j = i - back;
        match restarts(body, place, too, j) {
            None => return Ok(None),
            Some(true) => return Ok(Some(None)),
            Some(false) => match paced(alloc, body, pace, j - 1)? {
                None => return Ok(None),
                Some(true) => return Ok(Some(Some(j - 1))),
                Some(false) => {}
            },
        }
    }
    Ok(Some(None))
}

/// `last x`: the variable at its own previous instant, and at a first instant its initial
/// equation.
pub fn last(alloc: Global, body: &Body, x: u32, i: usize) -> Result<Option<Cell>, NoMemory>
    ensures { IfOk result (λ r. r ≡ spec.last body.now x i) }
{
    match nth(body.def.definition().places.vars.as_slice(), x as usize) {
        None => Ok(Some(Cell::Absent)),
        Some(w) => {
            match previous(alloc, body, Pace::Variable(x), w.place.as_slice(), &[], i)? {
                None => Ok(None),
                Some(Some(j)) => copy_known(alloc, read(body, Key::Var(x), j)),
                Some(None) => match body.def.start_of(w) {
                    None => Ok(Some(Cell::Present(nil()))),
                    Some(_) => copy_known(alloc, read(body, Key::Start(x), i)),
                },
            }
        }
    }
}

/// The row that `last` of a name reads.
pub fn last_bound(
    alloc: Global,
    body: &Body,
    bound: Binder,
    i: usize,
) -> Result<Option<Cell>, NoMemory>
    ensures { IfOk result (λ r. r ≡ spec.last_bound body.now bound i) }
{
    match bound {
        Binder::Var(x) => last(alloc, body, x, i),
        Binder::Nothing => Ok(Some(Cell::Absent)),
        Binder::Def(_) => Ok(Some(Cell::Absent)),
        Binder::Param(_) => Ok(Some(Cell::Absent)),
        Binder::Case(_, _) => Ok(Some(Cell::Absent)),
    }
}
