//! The walk that finds what stands where in a body.

ghost use Rattle.std.specs.Prelude.{◌≡◌, ◌+◌, ◌<◌, ◌^◌, [], ◌∷◌, ◌++◌, true, false, OnOk, IfOk, map, option_map, length};
ghost use Rattle.ls_places.specs.Blocks.{case_of, signal_of};
ghost use Rattle.ls_places.specs.Built.{built};
ghost use Rattle.ls_places.specs.Places as spec;

use crate::around::{Where, at_top};
use crate::bind::{
    Modes, PlacesBuilder, bind_pattern, clock_at, close_modes, naming, open_modes, open_reset,
    plain_at, reading, start_at, whole_at,
};
use crate::blocks::{cases_of, signals_of};
use crate::places::{Named, Places, Transition};
use crate::signals::{CasePlaces, Signals};
use crate::vars::Variables;
use ls_ast::{Arm, BodyOf, Equation, Expr, Guard, Handler, State, Test};
use ls_base::{List, NoMemory, NoteCopy};
use std::alloc::Global;

/// The greatest number of items of a list.
const MOST: usize = 4_294_967_294;

/// What a walk is given beside the body.
#[derive(Clone, Copy)]
struct Given<'a, C, S> {
    /// The number of the definition's parameters.
    first: u32,
    /// The places of constructors.
    cases: &'a C,
    /// Which expressions are signals.
    signals: &'a S,
}

/// The number of the next clock name, after `first` parameters and `count` clock names. It is
/// refused where these are as many as a list may have items, since no block is asked for more.
fn next_number(first: u32, count: usize) -> Result<u32, NoMemory>
    ensures number { IfOk result (λ m. m ≡ first + count) }
    ensures room { IfOk result (λ m. m + 1 < 2 ^ 32) }
{
    if count >= MOST {
        return Err(NoMemory);
    }
    let number = first as usize + count;
    if number >= MOST {
        return Err(NoMemory);
    }
    Ok(number as u32)
}

/// A `match` on e begins: the number of its clock name.
fn open_match<N: NoteCopy, C: CasePlaces, S: Signals<N>>(
    alloc: Global,
    e: &Expr<N>,
    arms: &[Arm<N>],
    w: &Where,
    given: &Given<C, S>,
    found: &mut PlacesBuilder<N>,
) -> Result<u32, NoMemory>
    ensures number { IfOk result (λ m. m ≡ given.now.first + length found.old.names.items) }
    ensures found { OnOk result (built found.new ≡ spec.open_match N e.now (map (case_of (C.place given.now.cases.now)) arms.now) w.now (built found.old)) }
{
    let number = next_number(given.first, found.name_count())?;
    let cases = cases_of(alloc, arms, given.cases)?;
    let named = Named::Match(found.next_expr(), cases, w.place.copy(alloc)?);
    reading(alloc, e, &w.place, found)?;
    naming(named, found)?;
    Ok(number)
}

/// A `present` begins: the number of its clock name.
fn open_present<N>(
    alloc: Global,
    tests: &[Test<N>],
    w: &Where,
    first: u32,
    found: &mut PlacesBuilder<N>,
) -> Result<u32, NoMemory>
    ensures number { IfOk result (λ m. m ≡ first + length found.old.names.items) }
    ensures found { OnOk result (built found.new ≡ spec.open_present N (map signal_of tests.now) w.now (built found.old)) }
{
    let number = next_number(first, found.name_count())?;
    let named = Named::Present(signals_of(alloc, tests)?, w.place.copy(alloc)?);
    naming(named, found)?;
    Ok(number)
}

/// An `automaton` begins: the number of the first of its two clock names.
fn open_automaton<N>(
    alloc: Global,
    w: &Where,
    first: u32,
    found: &mut PlacesBuilder<N>,
) -> Result<u32, NoMemory>
    ensures number { IfOk result (λ m. m ≡ first + length found.old.names.items) }
    ensures room { IfOk result (λ m. m + 1 < 2 ^ 32) }
    ensures found { OnOk result (built found.new ≡ spec.open_modes N w.now.place (built found.old)) }
{
    let number = next_number(first, found.name_count())?;
    open_modes(alloc, w, found)?;
    Ok(number)
}

#[cycle(walk)]
fn walk_all<N: NoteCopy, C: CasePlaces, S: Signals<N>>(
    alloc: Global,
    all: &[Equation<N>],
    w: &Where,
    given: &Given<C, S>,
    found: &mut PlacesBuilder<N>,
) -> Result<(), NoMemory>
    ensures { OnOk result (built found.new ≡ spec.walk_all N (map (spec.walk_of N given.now.first (C.place given.now.cases.now) (S.signal given.now.signals.now)) all.now) w.now (built found.old)) }
{
    for eq in all {
        walk_equation(alloc, eq, w, given, found)?;
    }
    Ok(())
}

#[cycle(walk)]
fn walk_equation<N: NoteCopy, C: CasePlaces, S: Signals<N>>(
    alloc: Global,
    eq: &Equation<N>,
    w: &Where,
    given: &Given<C, S>,
    found: &mut PlacesBuilder<N>,
) -> Result<(), NoMemory>
    ensures { OnOk result (built found.new ≡ spec.walk_of N given.now.first (C.place given.now.cases.now) (S.signal given.now.signals.now) eq.now w.now (built found.old)) }
{
    match eq {
        Equation::Plain(pat, e) => { plain_at(alloc, pat, given.signals.is_signal(e), e, w, found) }
        Equation::Clock(name, e) => {
            whole_at(alloc, name.0, false, e, w, found)?;
            clock_at(alloc, name.0, w, found)
        }
        Equation::Initial(name, e) => start_at(alloc, name.0, e, w, found),
        Equation::Emit(name, e) => whole_at(alloc, name.0, true, e, w, found),
        Equation::Reset(eqs, e) => {
            let inside = w.in_reset(alloc, found.reset_count() as u32)?;
            open_reset(alloc, e, w, found)?;
            walk_all(alloc, eqs.as_slice(), &inside, given, found)
        }
        Equation::Match(e, arms) => {
            let m = open_match(alloc, e, arms.as_slice(), w, given, found)?;
            walk_arms(alloc, arms.as_slice(), m, w, given, found)
        }
        Equation::Present(tests, other) => {
            let m = open_present(alloc, tests.as_slice(), w, given.first, found)?;
            walk_tests(alloc, tests.as_slice(), m, w, given, found)?;
            walk_other(alloc, other, m, tests.len() as u32, w, given, found)
        }
        Equation::Automaton(states) => walk_automaton(alloc, states.as_slice(), w, given, found),
    }
}

#[cycle(walk)]
fn walk_automaton<N: NoteCopy, C: CasePlaces, S: Signals<N>>(
    alloc: Global,
    states: &[State<N>],
    w: &Where,
    given: &Given<C, S>,
    found: &mut PlacesBuilder<N>,
) -> Result<(), NoMemory>
    requires { length states.now < 2 ^ 32 }
    ensures { OnOk result (built found.new ≡ spec.automaton_at N given.now.first (C.place given.now.cases.now) (S.signal given.now.signals.now) (map (spec.state_of N given.now.first (C.place given.now.cases.now) (S.signal given.now.signals.now)) states.now) w.now (built found.old) (spec.open_modes N w.now.place (built found.old))) }
{
    let k = found.name_count();
    let m = open_automaton(alloc, w, given.first, found)?;
    let modes = walk_states(alloc, states, m, w, given, found)?;
    close_modes(alloc, k, modes, w, found)
}

#[cycle(walk)]
fn walk_arms<N: NoteCopy, C: CasePlaces, S: Signals<N>>(
    alloc: Global,
    all: &[Arm<N>],
    m: u32,
    w: &Where,
    given: &Given<C, S>,
    found: &mut PlacesBuilder<N>,
) -> Result<(), NoMemory>
    requires { length all.now < 2 ^ 32 }
    ensures { OnOk result (built found.new ≡ spec.arms_from N m 0 (spec.arm_walks N (map (spec.arm_of N given.now.first (C.place given.now.cases.now) (S.signal given.now.signals.now)) all.now)) w.now (built found.old)) }
{
    for (j, arm) in all.iter().enumerate() {
        walk_handler(alloc, &arm.handler, m, j as u32, w, given, found)?;
    }
    Ok(())
}

#[cycle(walk)]
fn walk_tests<N: NoteCopy, C: CasePlaces, S: Signals<N>>(
    alloc: Global,
    all: &[Test<N>],
    m: u32,
    w: &Where,
    given: &Given<C, S>,
    found: &mut PlacesBuilder<N>,
) -> Result<(), NoMemory>
    requires { length all.now < 2 ^ 32 }
    ensures { OnOk result (built found.new ≡ spec.arms_from N m 0 (spec.test_walks N (map (spec.test_of N given.now.first (C.place given.now.cases.now) (S.signal given.now.signals.now)) all.now)) w.now (built found.old)) }
{
    for (j, test) in all.iter().enumerate() {
        walk_test(alloc, test, m, j as u32, w, given, found)?;
    }
    Ok(())
}

#[cycle(walk)]
fn walk_test<N: NoteCopy, C: CasePlaces, S: Signals<N>>(
    alloc: Global,
    test: &Test<N>,
    m: u32,
    j: u32,
    w: &Where,
    given: &Given<C, S>,
    found: &mut PlacesBuilder<N>,
) -> Result<(), NoMemory>
    ensures { OnOk result (built found.new ≡ (spec.test_of N given.now.first (C.place given.now.cases.now) (S.signal given.now.signals.now) test.now).walk m j w.now (built found.old)) }
{
    let inside = w.in_let(alloc, m, j)?;
    bind_pattern(alloc, test.signal.0, &test.pat, &inside, found)?;
    walk_handler(alloc, &test.handler, m, j, w, given, found)
}

#[cycle(walk)]
fn walk_other<N: NoteCopy, C: CasePlaces, S: Signals<N>>(
    alloc: Global,
    other: &Option<Handler<N>>,
    m: u32,
    j: u32,
    w: &Where,
    given: &Given<C, S>,
    found: &mut PlacesBuilder<N>,
) -> Result<(), NoMemory>
    ensures { OnOk result (built found.new ≡ spec.arms_from N m j (spec.option_list (option_map (spec.handler_of N given.now.first (C.place given.now.cases.now) (S.signal given.now.signals.now)) other.now)) w.now (built found.old)) }
{
    match other {
        None => Ok(()),
        Some(handler) => walk_handler(alloc, handler, m, j, w, given, found),
    }
}

/// Equations whose names are local to an arm.
#[cycle(walk)]
fn walk_let<N: NoteCopy, C: CasePlaces, S: Signals<N>>(
    alloc: Global,
    all: &[Equation<N>],
    m: u32,
    j: u32,
    w: &Where,
    given: &Given<C, S>,
    found: &mut PlacesBuilder<N>,
) -> Result<(), NoMemory>
    ensures { OnOk result (built found.new ≡ spec.walk_all N (map (spec.walk_of N given.now.first (C.place given.now.cases.now) (S.signal given.now.signals.now)) all.now) (spec.in_let m j w.now) (built found.old)) }
{
    let inside = w.in_let(alloc, m, j)?;
    walk_all(alloc, all, &inside, given, found)
}

/// Equations of an arm that bind names of the list around its block.
#[cycle(walk)]
fn walk_do<N: NoteCopy, C: CasePlaces, S: Signals<N>>(
    alloc: Global,
    all: &[Equation<N>],
    m: u32,
    j: u32,
    w: &Where,
    given: &Given<C, S>,
    found: &mut PlacesBuilder<N>,
) -> Result<(), NoMemory>
    ensures { OnOk result (built found.new ≡ spec.walk_all N (map (spec.walk_of N given.now.first (C.place given.now.cases.now) (S.signal given.now.signals.now)) all.now) (spec.in_do m j w.now) (built found.old)) }
{
    let inside = w.in_do(alloc, m, j)?;
    walk_all(alloc, all, &inside, given, found)
}

#[cycle(walk)]
fn walk_handler<N: NoteCopy, C: CasePlaces, S: Signals<N>>(
    alloc: Global,
    handler: &Handler<N>,
    m: u32,
    j: u32,
    w: &Where,
    given: &Given<C, S>,
    found: &mut PlacesBuilder<N>,
) -> Result<(), NoMemory>
    ensures { OnOk result (built found.new ≡ spec.handler_of N given.now.first (C.place given.now.cases.now) (S.signal given.now.signals.now) handler.now m j w.now (built found.old)) }
{
    walk_let(alloc, handler.locals.as_slice(), m, j, w, given, found)?;
    walk_do(alloc, handler.eqs.as_slice(), m, j, w, given, found)
}

#[cycle(walk)]
fn walk_states<N: NoteCopy, C: CasePlaces, S: Signals<N>>(
    alloc: Global,
    all: &[State<N>],
    m: u32,
    w: &Where,
    given: &Given<C, S>,
    found: &mut PlacesBuilder<N>,
) -> Result<Modes, NoMemory>
    requires few { length all.now < 2 ^ 32 }
    requires room { m + 1 < 2 ^ 32 }
    ensures found { OnOk result (built found.new ≡ spec.arms_from N m 0 (spec.state_walks N (map (spec.state_of N given.now.first (C.place given.now.cases.now) (S.signal given.now.signals.now)) all.now)) w.now (built found.old)) }
    ensures strong { IfOk result (λ r. r.strong ≡ spec.strongs_from N m 0 (map (spec.state_of N given.now.first (C.place given.now.cases.now) (S.signal given.now.signals.now)) all.now) w.now (built found.old)) }
    ensures weak { IfOk result (λ r. r.weak ≡ spec.weaks_from N m 0 (map (spec.state_of N given.now.first (C.place given.now.cases.now) (S.signal given.now.signals.now)) all.now) w.now (built found.old)) }
{
    let mut strong = List::new(alloc);
    let mut weak = List::new(alloc);
    for (j, state) in all.iter().enumerate() {
        let guards = walk_state(alloc, state, m, j as u32, w, given, found)?;
        strong.push((state.name.0, guards.0))?;
        weak.push((state.name.0, guards.1))?;
    }
    Ok(Modes { strong, weak })
}

/// A state: its strong guards, and its weak ones.
#[cycle(walk)]
fn walk_state<N: NoteCopy, C: CasePlaces, S: Signals<N>>(
    alloc: Global,
    state: &State<N>,
    m: u32,
    j: u32,
    w: &Where,
    given: &Given<C, S>,
    found: &mut PlacesBuilder<N>,
) -> Result<(List<Transition>, List<Transition>), NoMemory>
    requires { m + 1 < 2 ^ 32 }
    ensures found { OnOk result (built found.new ≡ (spec.state_of N given.now.first (C.place given.now.cases.now) (S.signal given.now.signals.now) state.now).walk m j w.now (built found.old)) }
    ensures strong { IfOk result (λ r. r.0 ≡ (spec.state_of N given.now.first (C.place given.now.cases.now) (S.signal given.now.signals.now) state.now).strong m j w.now (built found.old)) }
    ensures weak { IfOk result (λ r. r.1 ≡ (spec.state_of N given.now.first (C.place given.now.cases.now) (S.signal given.now.signals.now) state.now).weak m j w.now (built found.old)) }
{
    walk_handler(alloc, &state.handler, m, j, w, given, found)?;
    let strong = walk_guards(alloc, state.strong.as_slice(), m + 1, j, w, given, found)?;
    let weak = walk_guards(alloc, state.weak.as_slice(), m, j, w, given, found)?;
    Ok((strong, weak))
}

#[cycle(walk)]
fn walk_guards<N: NoteCopy, C: CasePlaces, S: Signals<N>>(
    alloc: Global,
    all: &[Guard<N>],
    m: u32,
    j: u32,
    w: &Where,
    given: &Given<C, S>,
    found: &mut PlacesBuilder<N>,
) -> Result<List<Transition>, NoMemory>
    ensures found { OnOk result (built found.new ≡ spec.walk_guards N (map (spec.guard_of N given.now.first (C.place given.now.cases.now) (S.signal given.now.signals.now)) all.now) m j w.now (built found.old)) }
    ensures transitions { IfOk result (λ r. r ≡ spec.transitions N (map (spec.guard_of N given.now.first (C.place given.now.cases.now) (S.signal given.now.signals.now)) all.now) m j w.now (built found.old)) }
{
    let mut done = List::new(alloc);
    for guard in all {
        done.push(walk_guard(alloc, guard, m, j, w, given, found)?)?;
    }
    Ok(done)
}

#[cycle(walk)]
fn walk_guard<N: NoteCopy, C: CasePlaces, S: Signals<N>>(
    alloc: Global,
    guard: &Guard<N>,
    m: u32,
    j: u32,
    w: &Where,
    given: &Given<C, S>,
    found: &mut PlacesBuilder<N>,
) -> Result<Transition, NoMemory>
    ensures found { OnOk result (built found.new ≡ (spec.guard_of N given.now.first (C.place given.now.cases.now) (S.signal given.now.signals.now) guard.now).walk m j w.now (built found.old)) }
    ensures transition { IfOk result (λ r. r ≡ (spec.guard_of N given.now.first (C.place given.now.cases.now) (S.signal given.now.signals.now) guard.now).transition m j w.now (built found.old)) }
{
    let inside = w.in_let(alloc, m, j)?;
    walk_all(alloc, guard.eqs.as_slice(), &inside, given, found)?;
    let cond = found.next_expr();
    reading(alloc, &guard.cond, &inside.place, found)?;
    Ok(Transition {
        cond,
        restart: guard.restart,
        target: guard.target.0,
    })
}

/// What a walk finds in the body of a definition.
fn walk_body<N: NoteCopy, C: CasePlaces, S: Signals<N>>(
    alloc: Global,
    first: u32,
    cases: &C,
    signals: &S,
    body: &BodyOf<N>,
) -> Result<PlacesBuilder<N>, NoMemory>
    ensures { IfOk result (λ b. built b ≡ spec.find N first (C.place cases.now) (S.signal signals.now) body.now) }
{
    let given = Given {
        first,
        cases,
        signals,
    };
    let mut found = PlacesBuilder::new(alloc);
    walk_all(
        alloc,
        body.eqs.as_slice(),
        &at_top(alloc),
        &given,
        &mut found,
    )?;
    reading(alloc, &body.result, &List::new(alloc), &mut found)?;
    Ok(found)
}

/// What stands in the body of a definition, with its places. `first` is the number of the
/// definition's parameters, `cases` tells the places of constructors, and `signals` which
/// expressions are signals. It is refused where memory is, and where the parameters and the clock
/// names are as many as a list may have items, since no block is asked for more.
pub fn find<N: NoteCopy, C: CasePlaces, S: Signals<N>>(
    alloc: Global,
    first: u32,
    cases: &C,
    signals: &S,
    body: &BodyOf<N>,
) -> Result<Places<N>, NoMemory>
    ensures found { IfOk result (λ r. r ≡ spec.find N first (C.place cases.now) (S.signal signals.now) body.now) }
    ensures numbered { IfOk result (λ r. first + length r.names < 2 ^ 32) }
{
    let found = walk_body(alloc, first, cases, signals, body)?;
    next_number(first, found.name_count())?;
    Ok(found.finish(alloc)?)
}

/// The variables that `find` finds in a body, with the map that finds them by their names and
/// lists.
pub fn variables<N: NoteCopy, C: CasePlaces, S: Signals<N>>(
    alloc: Global,
    first: u32,
    cases: &C,
    signals: &S,
    body: &BodyOf<N>,
) -> Result<Variables, NoMemory>
    ensures { IfOk result (λ r. r ≡ (spec.find N first (C.place cases.now) (S.signal signals.now) body.now).vars) }
{
    Ok(walk_body(alloc, first, cases, signals, body)?.into_variables())
}
