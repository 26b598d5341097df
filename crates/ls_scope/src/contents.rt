//! What stands where in a body.

ghost use Rattle.std.specs.Prelude.{◌≡◌, ◌+◌, ◌<◌, ◌^◌, [], ◌∷◌, ◌++◌, true, false, OnOk, IfOk, map, option_map, length};
ghost use Rattle.scope_rules.specs.Places as spec;
ghost use Rattle.ls_scope.specs.Told.{built, told};

use crate::around::{around, at_top, in_do, in_let};
use ls_ast::{Arm, BodyOf, Equation, Expr, Form, Guard, Handler, Mark, Pat, State, Test};
use ls_base::{List, NoMemory, NoteCopy};
use scope_rules::{Site, Stand, Way, Where};
use std::alloc::Global;

/// An expression and how it stands, or the signal of a test, at a place.
#[derive(Debug, Drop)]
pub enum Reading<'a, N> {
    Reads(&'a Expr<N>, Stand, List<(u32, u32)>),
    Tests(u32, List<(u32, u32)>),
}

/// What stands in a body, in the order of the text.
#[derive(Debug, Drop)]
pub struct Contents<'a, N> {
    /// The names that are bound.
    pub sites: List<Site>,
    /// The names of initial equations, with the place of their lists.
    pub starts: List<(u32, List<(u32, u32)>)>,
    pub readings: List<Reading<'a, N>>,
    /// The constructors of each `match`; none is `_`.
    pub arms: List<List<Option<u32>>>,
    /// The states of each automaton, and the targets of its guards.
    pub automata: List<(List<u32>, List<u32>)>,
    /// The number of the next clock name.
    pub next: u32,
}

/// An expression that stands as a stream.
pub const STREAM: Stand = Stand::At(Mark::Data);

#[cycle(names)]
fn add_all_names(all: &[Pat], done: &mut List<u32>) -> Result<(), NoMemory>
    ensures { OnOk result (done.new ≡ done.old ++ spec.joined (map spec.names_of all.now)) }
{
    for pat in all {
        add_names(pat, done)?;
    }
    Ok(())
}

/// Adds the names of a pattern, in the order of the text.
#[cycle(names)]
pub fn add_names(pat: &Pat, done: &mut List<u32>) -> Result<(), NoMemory>
    ensures { OnOk result (done.new ≡ done.old ++ spec.names_of pat.now) }
{
    match pat {
        Pat::Any => Ok(()),
        Pat::Unit => Ok(()),
        Pat::Var(name) => done.push(name.0),
        Pat::Tuple(parts) => add_all_names(parts.as_slice(), done),
    }
}

/// Whether a pattern is one name.
pub fn is_name(pat: &Pat) -> bool
    ensures { result ≡ spec.is_name pat.now }
{
    match pat {
        Pat::Any => false,
        Pat::Unit => false,
        Pat::Var(_) => true,
        Pat::Tuple(_) => false,
    }
}

// How an equation for e alone binds a name.
fn called<N>(e: &Expr<N>) -> Way
    ensures { result ≡ spec.way_of true e.now }
{
    match e.form.get() {
        Form::Call { head, .. } => Way::Called(head.0),
        _ => Way::Part,
    }
}

fn bind<'a, N>(
    alloc: Global,
    way: Way,
    w: &Where,
    x: u32,
    found: &mut Contents<'a, N>,
) -> Result<(), NoMemory>
    ensures { OnOk result (built found.new ≡ spec.bind N way w.now x (built found.old)) }
{
    let list = w.list.copy(alloc)?;
    let inner = w.inner.copy(alloc)?;
    found.sites.push(Site {
        var: x,
        list,
        inner,
        way,
    })
}

fn bind_all<'a, N>(
    alloc: Global,
    way: Way,
    w: &Where,
    names: &[u32],
    found: &mut Contents<'a, N>,
) -> Result<(), NoMemory>
    ensures { OnOk result (built found.new ≡ spec.bind_all N way w.now names.now (built found.old)) }
{
    for x in names {
        bind(alloc, way, w, *x, found)?;
    }
    Ok(())
}

fn bind_names<'a, N>(
    alloc: Global,
    way: Way,
    w: &Where,
    pat: &Pat,
    found: &mut Contents<'a, N>,
) -> Result<(), NoMemory>
    ensures { OnOk result (built found.new ≡ spec.bind_all N way w.now (spec.names_of pat.now) (built found.old)) }
{
    let mut names = List::new(alloc);
    add_names(pat, &mut names)?;
    bind_all(alloc, way, w, names.as_slice(), found)
}

fn bind_pattern<'a, N>(
    alloc: Global,
    pat: &Option<Pat>,
    w: &Where,
    found: &mut Contents<'a, N>,
) -> Result<(), NoMemory>
    ensures { OnOk result (built found.new ≡ spec.bind_pattern N pat.now w.now (built found.old)) }
{
    match pat {
        None => Ok(()),
        Some(pat) => bind_names(alloc, Way::Tested, w, pat, found),
    }
}

fn read<'a, N>(
    alloc: Global,
    e: &'a Expr<N>,
    stand: Stand,
    w: &Where,
    found: &mut Contents<'a, N>,
) -> Result<(), NoMemory>
    ensures { OnOk result (built found.new ≡ spec.read N (spec.reads e.now stand (spec.around w.now)) (built found.old)) }
{
    let place = around(alloc, w)?;
    found.readings.push(Reading::Reads(e, stand, place))
}

fn read_test<'a, N>(
    alloc: Global,
    x: u32,
    w: &Where,
    found: &mut Contents<'a, N>,
) -> Result<(), NoMemory>
    ensures { OnOk result (built found.new ≡ spec.read N (spec.tests x (spec.around w.now)) (built found.old)) }
{
    let place = around(alloc, w)?;
    found.readings.push(Reading::Tests(x, place))
}

fn read_tests<'a, N>(
    alloc: Global,
    tests: &[Test<N>],
    w: &Where,
    found: &mut Contents<'a, N>,
) -> Result<(), NoMemory>
    ensures { OnOk result (built found.new ≡ spec.read_tests N (map spec.signal_of tests.now) w.now (built found.old)) }
{
    for test in tests {
        read_test(alloc, test.signal.0, w, found)?;
    }
    Ok(())
}

fn start<'a, N>(
    alloc: Global,
    x: u32,
    w: &Where,
    found: &mut Contents<'a, N>,
) -> Result<(), NoMemory>
    ensures { OnOk result (built found.new ≡ spec.start N x w.now (built found.old)) }
{
    let list = w.list.copy(alloc)?;
    found.starts.push((x, list))
}

fn walk_plain<'a, N>(
    alloc: Global,
    pat: &Pat,
    e: &'a Expr<N>,
    w: &Where,
    found: &mut Contents<'a, N>,
) -> Result<(), NoMemory>
    ensures { OnOk result (built found.new ≡ spec.walk_plain N pat.now e.now w.now (built found.old)) }
{
    if is_name(pat) {
        read(alloc, e, Stand::Right, w, found)?;
        bind_names(alloc, called(e), w, pat, found)
    } else {
        read(alloc, e, STREAM, w, found)?;
        bind_names(alloc, Way::Part, w, pat, found)
    }
}

/// Counts clock names, from the next number on. It is refused where they are as many as a list
/// may have items, since no block is asked for more.
fn count_names<'a, N>(count: u32, found: &mut Contents<'a, N>) -> Result<u32, NoMemory>
    ensures number { IfOk result (λ m. m ≡ found.old.next) }
    ensures room { IfOk result (λ m. m + count < 2 ^ 32) }
    ensures found { OnOk result (built found.new ≡ record (built found.old) { next = found.old.next + count }) }
{
    let number = found.next;
    match number.checked_add(count) {
        Some(next) => {
            found.next = next;
            Ok(number)
        }
        None => Err(NoMemory),
    }
}

fn walk_clock<'a, N>(
    alloc: Global,
    x: u32,
    e: &'a Expr<N>,
    w: &Where,
    found: &mut Contents<'a, N>,
) -> Result<(), NoMemory>
    ensures { OnOk result (built found.new ≡ spec.bind N Way.Clock w.now x (spec.read N (spec.reads e.now spec.stream (spec.around w.now)) (spec.count_name N (built found.old)))) }
{
    count_names(1, found)?;
    read(alloc, e, STREAM, w, found)?;
    bind(alloc, Way::Clock, w, x, found)
}

fn cases_of<N>(alloc: Global, all: &[Arm<N>]) -> Result<List<Option<u32>>, NoMemory>
    ensures { IfOk result (λ r. r ≡ map spec.case_of all.now) }
{
    let mut done = List::new(alloc);
    for arm in all {
        let case = match arm.case {
            None => None,
            Some(name) => Some(name.0),
        };
        done.push(case)?;
    }
    Ok(done)
}

fn open_match<'a, N>(
    alloc: Global,
    e: &'a Expr<N>,
    arms: &[Arm<N>],
    w: &Where,
    found: &mut Contents<'a, N>,
) -> Result<u32, NoMemory>
    ensures number { IfOk result (λ m. m ≡ found.old.next) }
    ensures found { OnOk result (built found.new ≡ spec.open_match N (map spec.case_of arms.now) (spec.read N (spec.reads e.now spec.stream (spec.around w.now)) (built found.old))) }
{
    let cases = cases_of(alloc, arms)?;
    let number = count_names(1, found)?;
    read(alloc, e, STREAM, w, found)?;
    found.arms.push(cases)?;
    Ok(number)
}

fn titles_of<N>(alloc: Global, all: &[State<N>]) -> Result<List<u32>, NoMemory>
    ensures { IfOk result (λ r. r ≡ map spec.title_of all.now) }
{
    let mut done = List::new(alloc);
    for state in all {
        done.push(state.name.0)?;
    }
    Ok(done)
}

fn add_targets<N>(all: &[Guard<N>], done: &mut List<u32>) -> Result<(), NoMemory>
    ensures { OnOk result (done.new ≡ done.old ++ spec.guard_targets all.now) }
{
    for guard in all {
        done.push(guard.target.0)?;
    }
    Ok(())
}

fn targets_of<N>(alloc: Global, all: &[State<N>]) -> Result<List<u32>, NoMemory>
    ensures { IfOk result (λ r. r ≡ spec.joined (map spec.targets_of all.now)) }
{
    let mut done = List::new(alloc);
    for state in all {
        add_targets(state.strong.as_slice(), &mut done)?;
        add_targets(state.weak.as_slice(), &mut done)?;
    }
    Ok(done)
}

fn open_automaton<'a, N>(
    alloc: Global,
    all: &[State<N>],
    found: &mut Contents<'a, N>,
) -> Result<u32, NoMemory>
    ensures number { IfOk result (λ m. m ≡ found.old.next) }
    ensures room { IfOk result (λ m. m + 1 < 2 ^ 32) }
    ensures found { OnOk result (built found.new ≡ spec.open_automaton N (map spec.title_of all.now) (spec.joined (map spec.targets_of all.now)) (built found.old)) }
{
    let titles = titles_of(alloc, all)?;
    let targets = targets_of(alloc, all)?;
    let number = count_names(2, found)?;
    found.automata.push((titles, targets))?;
    Ok(number)
}

#[cycle(walk)]
fn walk_all<'a, N>(
    alloc: Global,
    all: &'a [Equation<N>],
    w: &Where,
    found: &mut Contents<'a, N>,
) -> Result<(), NoMemory>
    ensures { OnOk result (built found.new ≡ spec.walk_all N (map (spec.walk_of N) all.now) w.now (built found.old)) }
{
    for eq in all {
        walk_equation(alloc, eq, w, found)?;
    }
    Ok(())
}

#[cycle(walk)]
fn walk_equation<'a, N>(
    alloc: Global,
    eq: &'a Equation<N>,
    w: &Where,
    found: &mut Contents<'a, N>,
) -> Result<(), NoMemory>
    ensures { OnOk result (built found.new ≡ spec.walk_of N eq.now w.now (built found.old)) }
{
    match eq {
        Equation::Plain(pat, e) => walk_plain(alloc, pat, e, w, found),
        Equation::Clock(name, e) => walk_clock(alloc, name.0, e, w, found),
        Equation::Initial(name, e) => {
            read(alloc, e, STREAM, w, found)?;
            start(alloc, name.0, w, found)
        }
        Equation::Emit(name, e) => {
            read(alloc, e, STREAM, w, found)?;
            bind(alloc, Way::Emitted, w, name.0, found)
        }
        Equation::Reset(eqs, e) => {
            read(alloc, e, STREAM, w, found)?;
            walk_all(alloc, eqs.as_slice(), w, found)
        }
        Equation::Match(e, arms) => {
            let m = open_match(alloc, e, arms.as_slice(), w, found)?;
            walk_arms(alloc, arms.as_slice(), m, w, found)
        }
        Equation::Present(tests, other) => {
            read_tests(alloc, tests.as_slice(), w, found)?;
            let m = count_names(1, found)?;
            walk_tests(alloc, tests.as_slice(), m, w, found)?;
            walk_other(alloc, other, m, tests.len() as u32, w, found)
        }
        Equation::Automaton(states) => {
            let m = open_automaton(alloc, states.as_slice(), found)?;
            walk_states(alloc, states.as_slice(), m, w, found)
        }
    }
}

#[cycle(walk)]
fn walk_arms<'a, N>(
    alloc: Global,
    all: &'a [Arm<N>],
    m: u32,
    w: &Where,
    found: &mut Contents<'a, N>,
) -> Result<(), NoMemory>
    requires { length all.now < 2 ^ 32 }
    ensures { OnOk result (built found.new ≡ spec.arms_from N m 0 (spec.arm_walks N (map (spec.arm_of N) all.now)) w.now (built found.old)) }
{
    for (j, arm) in all.iter().enumerate() {
        walk_handler(alloc, &arm.handler, m, j as u32, w, found)?;
    }
    Ok(())
}

#[cycle(walk)]
fn walk_tests<'a, N>(
    alloc: Global,
    all: &'a [Test<N>],
    m: u32,
    w: &Where,
    found: &mut Contents<'a, N>,
) -> Result<(), NoMemory>
    requires { length all.now < 2 ^ 32 }
    ensures { OnOk result (built found.new ≡ spec.arms_from N m 0 (spec.test_walks N (map (spec.test_of N) all.now)) w.now (built found.old)) }
{
    for (j, test) in all.iter().enumerate() {
        walk_test(alloc, test, m, j as u32, w, found)?;
    }
    Ok(())
}

#[cycle(walk)]
fn walk_test<'a, N>(
    alloc: Global,
    test: &'a Test<N>,
    m: u32,
    j: u32,
    w: &Where,
    found: &mut Contents<'a, N>,
) -> Result<(), NoMemory>
    ensures { OnOk result (built found.new ≡ (spec.test_of N test.now).walk m j w.now (built found.old)) }
{
    let inside = in_let(alloc, m, j, w)?;
    bind_pattern(alloc, &test.pat, &inside, found)?;
    walk_handler(alloc, &test.handler, m, j, w, found)
}

#[cycle(walk)]
fn walk_other<'a, N>(
    alloc: Global,
    other: &'a Option<Handler<N>>,
    m: u32,
    j: u32,
    w: &Where,
    found: &mut Contents<'a, N>,
) -> Result<(), NoMemory>
    ensures { OnOk result (built found.new ≡ spec.other_arm N m j (option_map (spec.handler_of N) other.now) w.now (built found.old)) }
{
    match other {
        None => Ok(()),
        Some(handler) => walk_handler(alloc, handler, m, j, w, found),
    }
}

#[cycle(walk)]
fn walk_handler<'a, N>(
    alloc: Global,
    handler: &'a Handler<N>,
    m: u32,
    j: u32,
    w: &Where,
    found: &mut Contents<'a, N>,
) -> Result<(), NoMemory>
    ensures { OnOk result (built found.new ≡ spec.handler_of N handler.now m j w.now (built found.old)) }
{
    let local = in_let(alloc, m, j, w)?;
    let shared = in_do(alloc, m, j, w)?;
    walk_all(alloc, handler.locals.as_slice(), &local, found)?;
    walk_all(alloc, handler.eqs.as_slice(), &shared, found)
}

#[cycle(walk)]
fn walk_states<'a, N>(
    alloc: Global,
    all: &'a [State<N>],
    m: u32,
    w: &Where,
    found: &mut Contents<'a, N>,
) -> Result<(), NoMemory>
    requires few { length all.now < 2 ^ 32 }
    requires room { m + 1 < 2 ^ 32 }
    ensures { OnOk result (built found.new ≡ spec.arms_from N m 0 (spec.state_walks N (map (spec.state_of N) all.now)) w.now (built found.old)) }
{
    for (j, state) in all.iter().enumerate() {
        walk_state(alloc, state, m, j as u32, w, found)?;
    }
    Ok(())
}

#[cycle(walk)]
fn walk_state<'a, N>(
    alloc: Global,
    state: &'a State<N>,
    m: u32,
    j: u32,
    w: &Where,
    found: &mut Contents<'a, N>,
) -> Result<(), NoMemory>
    requires { m + 1 < 2 ^ 32 }
    ensures { OnOk result (built found.new ≡ (spec.state_of N state.now).walk m j w.now (built found.old)) }
{
    walk_handler(alloc, &state.handler, m, j, w, found)?;
    walk_guards(alloc, state.strong.as_slice(), m + 1, j, w, found)?;
    walk_guards(alloc, state.weak.as_slice(), m, j, w, found)
}

#[cycle(walk)]
fn walk_guards<'a, N>(
    alloc: Global,
    all: &'a [Guard<N>],
    m: u32,
    j: u32,
    w: &Where,
    found: &mut Contents<'a, N>,
) -> Result<(), NoMemory>
    ensures { OnOk result (built found.new ≡ spec.walk_guards N (map (spec.guard_of N) all.now) m j w.now (built found.old)) }
{
    for guard in all {
        walk_guard(alloc, guard, m, j, w, found)?;
    }
    Ok(())
}

#[cycle(walk)]
fn walk_guard<'a, N>(
    alloc: Global,
    guard: &'a Guard<N>,
    m: u32,
    j: u32,
    w: &Where,
    found: &mut Contents<'a, N>,
) -> Result<(), NoMemory>
    ensures { OnOk result (built found.new ≡ (spec.guard_of N guard.now).walk m j w.now (built found.old)) }
{
    let inside = in_let(alloc, m, j, w)?;
    walk_all(alloc, guard.eqs.as_slice(), &inside, found)?;
    read(alloc, &guard.cond, STREAM, &inside, found)
}

/// What stands in the body of a definition. `first` is the number of its parameters.
pub fn contents_of<'a, N>(
    alloc: Global,
    first: u32,
    body: &'a BodyOf<N>,
) -> Result<Contents<'a, N>, NoMemory>
    ensures { IfOk result (λ r. built r ≡ spec.contents_of N first body.now) }
{
    let mut found = Contents {
        sites: List::new(alloc),
        starts: List::new(alloc),
        readings: List::new(alloc),
        arms: List::new(alloc),
        automata: List::new(alloc),
        next: first,
    };
    walk_all(alloc, body.eqs.as_slice(), &at_top(alloc), &mut found)?;
    read(
        alloc,
        &body.result,
        Stand::Whole,
        &at_top(alloc),
        &mut found,
    )?;
    Ok(found)
}
