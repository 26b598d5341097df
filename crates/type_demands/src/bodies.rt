//! What equations and blocks ask.

ghost use Rattle.std.specs.Prelude.{◌≡◌, ◌+◌, ◌<◌, ◌^◌, ◌++◌, length, OnOk, IfOk};
ghost use Rattle.type_readings.specs.Given as scene;
ghost use Rattle.type_demands.specs.Walks as spec;
ghost use Rattle.type_rules.specs.Bodies as bodies;

use crate::around::{bound_at, in_do, in_let, signal_type};
use crate::patterns::{Named, alone, scheme};
use ls_ast::{Arm, Equation, Expr, Guard, Handler, Pat, State, Test};
use ls_base::{Boxed, List, NoMemory};
use ls_terms::TypeTerm;
use std::alloc::Global;
use type_readings::{
    CaseTypes, Fit, Given, Placed, Stand, answers_signal, any, any_signal, ask_expr, fits_one,
    fits_two, never,
};
use type_rules::{Around, Demand};

/// What is asked so far, and the number of the next clock name.
#[derive(Drop)]
pub struct Asking {
    pub out: List<Demand<u32>>,
    pub next: u32,
}

/// Adds the names of a pattern that the list binds, each with its variable.
fn add_found<C: CaseTypes>(
    alloc: Global,
    names: &[Named],
    w: &Around,
    given: &Given<C>,
    list: &mut List<Fit>,
) -> Result<(), NoMemory>
    requires { scene.fits given.now }
    ensures { OnOk result (list.new ≡ list.old ++ bodies.found (spec.bound_at C.case_type given.now w.now) names.now) }
{
    for named in names {
        if let Some(place) = bound_at(alloc, named.0, w, given)? {
            list.push((place, TypeTerm::Var(named.1)))?;
        }
    }
    Ok(())
}

/// A name of a pattern that the list does not bind serves no types.
fn ask_missing<C: CaseTypes>(
    alloc: Global,
    names: &[Named],
    w: &Around,
    given: &Given<C>,
    out: &mut List<Demand<u32>>,
) -> Result<(), NoMemory>
    requires { scene.fits given.now }
    ensures { OnOk result (out.new ≡ out.old ++ bodies.missing (spec.bound_at C.case_type given.now w.now) names.now) }
{
    for named in names {
        if bound_at(alloc, named.0, w, given)?.is_none() {
            never(out)?;
        }
    }
    Ok(())
}

/// The names of a pattern have the parts of the type of a place, which is a signal of the pattern
/// where `signal` says so.
fn ask_parts<C: CaseTypes>(
    alloc: Global,
    place: u32,
    pat: &Pat,
    signal: bool,
    w: &Around,
    given: &Given<C>,
    out: &mut List<Demand<u32>>,
) -> Result<(), NoMemory>
    requires { scene.fits given.now }
    ensures { OnOk result (out.new ≡ out.old ++ bodies.parts_have (spec.bound_at C.case_type given.now w.now) place (spec.wrapped signal) (bodies.shape_of pat.now)) }
{
    let mut names = List::new(alloc);
    let mut next = 0;
    let inner = scheme(alloc, pat, &mut next, &mut names)?;
    let whole = if signal {
        TypeTerm::Signal(Boxed::new(alloc, inner)?)
    } else {
        inner
    };
    let mut list = List::new(alloc);
    list.push((place, whole))?;
    add_found(alloc, names.as_slice(), w, given, &mut list)?;
    out.push(Demand::Fits(list))?;
    ask_missing(alloc, names.as_slice(), w, given, out)
}

/// A signal that an equation defines by a call.
fn ask_signal_equation<C: CaseTypes>(
    alloc: Global,
    pat: &Pat,
    e: &Expr<Placed>,
    w: &Around,
    given: &Given<C>,
    out: &mut List<Demand<u32>>,
) -> Result<(), NoMemory>
    requires { scene.fits given.now }
    ensures { OnOk result (out.new ≡ out.old ++ spec.signal_equation C.case_type given.now (bodies.shape_of pat.now).alone e.now w.now) }
{
    match alone(pat) {
        None => never(out),
        Some(x) => {
            match bound_at(alloc, x, w, given)? {
                None => never(out)?,
                Some(place) => out.push(Demand::Equal(place, e.note.1))?,
            }
            ask_expr(alloc, e, Stand::Whole, given, out)
        }
    }
}

/// `pat = e`
fn ask_plain<C: CaseTypes>(
    alloc: Global,
    pat: &Pat,
    e: &Expr<Placed>,
    w: &Around,
    given: &Given<C>,
    out: &mut List<Demand<u32>>,
) -> Result<(), NoMemory>
    requires { scene.fits given.now }
    ensures { OnOk result (out.new ≡ out.old ++ spec.plain_equation C.case_type given.now (bodies.shape_of pat.now) e.now w.now) }
{
    if answers_signal(e, given) {
        return ask_signal_equation(alloc, pat, e, w, given, out);
    }
    ask_parts(alloc, e.note.1, pat, false, w, given, out)?;
    ask_expr(alloc, e, Stand::Stream, given, out)
}

/// `clock x = e` and `last x = e`: the name has the type of e.
fn ask_named<C: CaseTypes>(
    alloc: Global,
    x: u32,
    e: &Expr<Placed>,
    w: &Around,
    given: &Given<C>,
    out: &mut List<Demand<u32>>,
) -> Result<(), NoMemory>
    requires { scene.fits given.now }
    ensures { OnOk result (out.new ≡ out.old ++ spec.named C.case_type given.now x e.now w.now) }
{
    match bound_at(alloc, x, w, given)? {
        None => never(out)?,
        Some(place) => fits_two(alloc, (place, any()), (e.note.1, any()), out)?,
    }
    ask_expr(alloc, e, Stand::Stream, given, out)
}

/// `emit x = e`: the name is a signal of the type of e.
fn ask_emitted<C: CaseTypes>(
    alloc: Global,
    x: u32,
    e: &Expr<Placed>,
    w: &Around,
    given: &Given<C>,
    out: &mut List<Demand<u32>>,
) -> Result<(), NoMemory>
    requires { scene.fits given.now }
    ensures { OnOk result (out.new ≡ out.old ++ spec.emitted C.case_type given.now x e.now w.now) }
{
    match bound_at(alloc, x, w, given)? {
        None => never(out)?,
        Some(place) => {
            let signal = any_signal(alloc)?;
            fits_two(alloc, (place, signal), (e.note.1, any()), out)?;
        }
    }
    ask_expr(alloc, e, Stand::Stream, given, out)
}

/// A condition.
fn ask_bool<C: CaseTypes>(
    alloc: Global,
    e: &Expr<Placed>,
    given: &Given<C>,
    out: &mut List<Demand<u32>>,
) -> Result<(), NoMemory>
    requires { scene.fits given.now }
    ensures { OnOk result (out.new ≡ out.old ++ spec.is_bool C.case_type given.now e.now) }
{
    fits_one(alloc, e.note.1, TypeTerm::Bool, out)?;
    ask_expr(alloc, e, Stand::Stream, given, out)
}

/// The scrutinee has the type of each constructor.
fn ask_cases<C: CaseTypes>(
    alloc: Global,
    place: u32,
    arms: &[Arm<Placed>],
    given: &Given<C>,
    out: &mut List<Demand<u32>>,
) -> Result<(), NoMemory>
    ensures { OnOk result (out.new ≡ out.old ++ spec.cases_have C.case_type given.now place arms.now) }
{
    for arm in arms {
        if let Some(name) = arm.case {
            match given.cases.case_type(name.0) {
                None => never(out)?,
                Some(scheme) => fits_one(alloc, place, scheme, out)?,
            }
        }
    }
    Ok(())
}

/// A `match` begins: its scrutinee, and the number of its clock name.
fn open_match<C: CaseTypes>(
    alloc: Global,
    e: &Expr<Placed>,
    arms: &[Arm<Placed>],
    given: &Given<C>,
    asking: &mut Asking,
) -> Result<u32, NoMemory>
    requires { scene.fits given.now }
    ensures number { IfOk result (λ m. m ≡ asking.old.next) }
    ensures opened { OnOk result (asking.new ≡ spec.match_opened C.case_type given.now e.now arms.now asking.old) }
{
    ask_expr(alloc, e, Stand::Stream, given, &mut asking.out)?;
    ask_cases(alloc, e.note.1, arms, given, &mut asking.out)?;
    name(asking)
}

/// The next clock name. It is refused where these are as many as a list may have items, since no
/// block is asked for more.
fn name(asking: &mut Asking) -> Result<u32, NoMemory>
    ensures number { IfOk result (λ m. m ≡ asking.old.next) }
    ensures named { OnOk result (asking.new ≡ spec.counted 1 asking.old) }
{
    let number = asking.next;
    match number.checked_add(1) {
        Some(next) => {
            asking.next = next;
            Ok(number)
        }
        None => Err(NoMemory),
    }
}

/// The two clock names of an automaton: the number of the first.
fn two_names(asking: &mut Asking) -> Result<u32, NoMemory>
    ensures number { IfOk result (λ m. m ≡ asking.old.next) }
    ensures room { IfOk result (λ m. m + 1 < 2 ^ 32) }
    ensures named { OnOk result (asking.new ≡ spec.counted 2 asking.old) }
{
    let number = asking.next;
    match number.checked_add(2) {
        Some(next) => {
            asking.next = next;
            Ok(number)
        }
        None => Err(NoMemory),
    }
}

/// `s(pat)` in a `present`: s is a signal, of the pattern's type.
fn ask_tested<C: CaseTypes>(
    alloc: Global,
    signal: Option<u32>,
    pat: &Option<Pat>,
    inside: &Around,
    given: &Given<C>,
    out: &mut List<Demand<u32>>,
) -> Result<(), NoMemory>
    requires { scene.fits given.now }
    ensures { OnOk result (out.new ≡ out.old ++ spec.tested C.case_type given.now signal pat.now inside.now) }
{
    match signal {
        None => never(out),
        Some(place) => match pat {
            None => {
                let scheme = any_signal(alloc)?;
                fits_one(alloc, place, scheme, out)
            }
            Some(pat) => ask_parts(alloc, place, pat, true, inside, given, out),
        },
    }
}

#[cycle(ask_equation)]
pub fn ask_equations<C: CaseTypes>(
    alloc: Global,
    all: &[Equation<Placed>],
    w: &Around,
    given: &Given<C>,
    asking: &mut Asking,
) -> Result<(), NoMemory>
    requires { scene.fits given.now }
    ensures { OnOk result (asking.new ≡ spec.all (spec.equations C.case_type given.now all.now) w.now asking.old) }
{
    for eq in all {
        ask_equation(alloc, eq, w, given, asking)?;
    }
    Ok(())
}

#[cycle(ask_equation)]
fn ask_equation<C: CaseTypes>(
    alloc: Global,
    eq: &Equation<Placed>,
    w: &Around,
    given: &Given<C>,
    asking: &mut Asking,
) -> Result<(), NoMemory>
    requires { scene.fits given.now }
    ensures { OnOk result (asking.new ≡ spec.took (spec.asks C.case_type given.now eq.now) w.now asking.old) }
{
    match eq {
        Equation::Plain(pat, e) => ask_plain(alloc, pat, e, w, given, &mut asking.out),
        Equation::Clock(x, e) => {
            ask_named(alloc, x.0, e, w, given, &mut asking.out)?;
            name(asking)?;
            Ok(())
        }
        Equation::Initial(x, e) => ask_named(alloc, x.0, e, w, given, &mut asking.out),
        Equation::Emit(x, e) => ask_emitted(alloc, x.0, e, w, given, &mut asking.out),
        Equation::Reset(eqs, e) => {
            ask_bool(alloc, e, given, &mut asking.out)?;
            ask_equations(alloc, eqs.as_slice(), w, given, asking)
        }
        Equation::Match(e, arms) => {
            let m = open_match(alloc, e, arms.as_slice(), given, asking)?;
            ask_arms(alloc, arms.as_slice(), m, w, given, asking)
        }
        Equation::Present(tests, other) => {
            let m = name(asking)?;
            ask_tests(alloc, tests.as_slice(), m, w, given, asking)?;
            ask_other(alloc, other, m, tests.len() as u32, w, given, asking)
        }
        Equation::Automaton(states) => {
            let m = two_names(asking)?;
            ask_states(alloc, states.as_slice(), m, w, given, asking)
        }
    }
}

#[cycle(ask_equation)]
fn ask_arms<C: CaseTypes>(
    alloc: Global,
    all: &[Arm<Placed>],
    m: u32,
    w: &Around,
    given: &Given<C>,
    asking: &mut Asking,
) -> Result<(), NoMemory>
    requires few { length all.now < 2 ^ 32 }
    requires fits { scene.fits given.now }
    ensures { OnOk result (asking.new ≡ spec.arms_from m 0 (spec.arms C.case_type given.now all.now) w.now asking.old) }
{
    for (j, arm) in all.iter().enumerate() {
        ask_handler(alloc, &arm.handler, m, j as u32, w, given, asking)?;
    }
    Ok(())
}

#[cycle(ask_equation)]
fn ask_tests<C: CaseTypes>(
    alloc: Global,
    all: &[Test<Placed>],
    m: u32,
    w: &Around,
    given: &Given<C>,
    asking: &mut Asking,
) -> Result<(), NoMemory>
    requires few { length all.now < 2 ^ 32 }
    requires fits { scene.fits given.now }
    ensures { OnOk result (asking.new ≡ spec.arms_from m 0 (spec.tests C.case_type given.now all.now) w.now asking.old) }
{
    for (j, test) in all.iter().enumerate() {
        ask_test(alloc, test, m, j as u32, w, given, asking)?;
    }
    Ok(())
}

#[cycle(ask_equation)]
fn ask_test<C: CaseTypes>(
    alloc: Global,
    test: &Test<Placed>,
    m: u32,
    j: u32,
    w: &Around,
    given: &Given<C>,
    asking: &mut Asking,
) -> Result<(), NoMemory>
    requires { scene.fits given.now }
    ensures { OnOk result (asking.new ≡ spec.took_arm (spec.test C.case_type given.now test.now) m j w.now asking.old) }
{
    let signal = signal_type(alloc, test.signal.0, w, given)?;
    let inside = in_let(alloc, m, j, w)?;
    ask_tested(alloc, signal, &test.pat, &inside, given, &mut asking.out)?;
    ask_handler(alloc, &test.handler, m, j, w, given, asking)
}

#[cycle(ask_equation)]
fn ask_other<C: CaseTypes>(
    alloc: Global,
    other: &Option<Handler<Placed>>,
    m: u32,
    j: u32,
    w: &Around,
    given: &Given<C>,
    asking: &mut Asking,
) -> Result<(), NoMemory>
    requires { scene.fits given.now }
    ensures { OnOk result (asking.new ≡ spec.arms_from m j (spec.otherwise C.case_type given.now other.now) w.now asking.old) }
{
    match other {
        None => Ok(()),
        Some(handler) => ask_handler(alloc, handler, m, j, w, given, asking),
    }
}

#[cycle(ask_equation)]
fn ask_handler<C: CaseTypes>(
    alloc: Global,
    handler: &Handler<Placed>,
    m: u32,
    j: u32,
    w: &Around,
    given: &Given<C>,
    asking: &mut Asking,
) -> Result<(), NoMemory>
    requires { scene.fits given.now }
    ensures { OnOk result (asking.new ≡ spec.took_arm (spec.handler C.case_type given.now handler.now) m j w.now asking.old) }
{
    let local = in_let(alloc, m, j, w)?;
    let shared = in_do(alloc, m, j, w)?;
    ask_equations(alloc, handler.locals.as_slice(), &local, given, asking)?;
    ask_equations(alloc, handler.eqs.as_slice(), &shared, given, asking)
}

#[cycle(ask_equation)]
fn ask_states<C: CaseTypes>(
    alloc: Global,
    all: &[State<Placed>],
    m: u32,
    w: &Around,
    given: &Given<C>,
    asking: &mut Asking,
) -> Result<(), NoMemory>
    requires few { length all.now < 2 ^ 32 }
    requires room { m + 1 < 2 ^ 32 }
    requires fits { scene.fits given.now }
    ensures { OnOk result (asking.new ≡ spec.arms_from m 0 (spec.states C.case_type given.now all.now) w.now asking.old) }
{
    for (j, state) in all.iter().enumerate() {
        ask_state(alloc, state, m, j as u32, w, given, asking)?;
    }
    Ok(())
}

#[cycle(ask_equation)]
fn ask_state<C: CaseTypes>(
    alloc: Global,
    state: &State<Placed>,
    m: u32,
    j: u32,
    w: &Around,
    given: &Given<C>,
    asking: &mut Asking,
) -> Result<(), NoMemory>
    requires room { m + 1 < 2 ^ 32 }
    requires fits { scene.fits given.now }
    ensures { OnOk result (asking.new ≡ spec.took_arm (spec.state C.case_type given.now state.now) m j w.now asking.old) }
{
    ask_handler(alloc, &state.handler, m, j, w, given, asking)?;
    ask_guards(alloc, state.strong.as_slice(), m + 1, j, w, given, asking)?;
    ask_guards(alloc, state.weak.as_slice(), m, j, w, given, asking)
}

#[cycle(ask_equation)]
fn ask_guards<C: CaseTypes>(
    alloc: Global,
    all: &[Guard<Placed>],
    m: u32,
    j: u32,
    w: &Around,
    given: &Given<C>,
    asking: &mut Asking,
) -> Result<(), NoMemory>
    requires { scene.fits given.now }
    ensures { OnOk result (asking.new ≡ spec.all_guards (spec.guards C.case_type given.now all.now) m j w.now asking.old) }
{
    for guard in all {
        ask_guard(alloc, guard, m, j, w, given, asking)?;
    }
    Ok(())
}

#[cycle(ask_equation)]
fn ask_guard<C: CaseTypes>(
    alloc: Global,
    guard: &Guard<Placed>,
    m: u32,
    j: u32,
    w: &Around,
    given: &Given<C>,
    asking: &mut Asking,
) -> Result<(), NoMemory>
    requires { scene.fits given.now }
    ensures { OnOk result (asking.new ≡ spec.took_arm (spec.guard C.case_type given.now guard.now) m j w.now asking.old) }
{
    let inside = in_let(alloc, m, j, w)?;
    ask_equations(alloc, guard.eqs.as_slice(), &inside, given, asking)?;
    ask_bool(alloc, &guard.cond, given, &mut asking.out)
}
