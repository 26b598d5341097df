//! A stand-in for the front end: from a parsed file to one whose notes have the binders, the clocks
//! and what of the types the stream network asks.

use crate::hints::{Hint, Told};
use crate::scope::{At, Scope, constructor, sampled};
use ls_ast::{
    Arm, BodyOf, Case, Def, DefOf, Equation, Expr, Form, Guard, Handler, Pat, Plain, State, Test,
};
use ls_base::{Boxed, List, Name, Names, NoMemory, NoteCopy};
use ls_places::{CasePlaces, Signals, find};
use ls_sig::{Binder, Note};
use ls_terms::{ClockTerm, Kind, TypeTerm};
use std::alloc::Global;

/// What the walk is asked for here: the numbers of variables and of clock names, for which the
/// places of constructors and the signals do not matter.
struct Unasked;

impl CasePlaces for Unasked {
    ghost use Rattle.std.specs.Prelude.{None};

    ghost place = { λ it x. None };

    fn place(&self, _name: u32) -> Option<u32> {
        None
    }
}

impl Signals<Plain> for Unasked {
    ghost use Rattle.std.specs.Prelude.{false};

    ghost signal = { λ it e. false };

    fn is_signal(&self, _e: &Expr<Plain>) -> bool {
        false
    }
}

// ---- expressions

/// The number of a case of a condition.
fn case_number(case: Case, scope: &Scope) -> u32 {
    match case {
        Case::True => 1,
        Case::False => 0,
        Case::Of(name) => match constructor(name, scope.defs) {
            Some((_, place)) => place,
            None => 0,
        },
    }
}

/// A clock without its outermost sampling.
fn outer(alloc: Global, ck: &ClockTerm) -> Result<ClockTerm, NoMemory> {
    match ck {
        ClockTerm::On(inner, _, _) => inner.get().copy(alloc),
        _ => ck.copy(alloc),
    }
}

/// The name whose binder the note of a form has.
fn named(form: &Form<Plain>) -> Option<Name> {
    match form {
        Form::Var(x) | Form::Last(x) | Form::Asked(x) | Form::Case(x) => Some(*x),
        Form::When(_, x, _) => Some(*x),
        Form::Merge(x, _) => Some(*x),
        Form::Call { head, .. } => Some(*head),
        _ => None,
    }
}

/// The type of a function; what is around the arrow is not asked.
fn arrow(alloc: Global) -> Result<TypeTerm, NoMemory> {
    let result = Boxed::new(alloc, TypeTerm::Int)?;
    Ok(TypeTerm::Arrow(Kind::Comb, List::new(alloc), result))
}

/// The type of what is no function; what is under a signal is not asked.
fn data(alloc: Global, signal: bool) -> Result<TypeTerm, NoMemory> {
    if signal {
        return Ok(TypeTerm::Signal(Boxed::new(alloc, TypeTerm::Int)?));
    }
    Ok(TypeTerm::Int)
}

/// The clock of this number: 0 is the clock of the place, and the others are variables.
fn numbered(alloc: Global, k: u32, ck: &ClockTerm) -> Result<ClockTerm, NoMemory> {
    if k == 0 {
        return ck.copy(alloc);
    }
    Ok(ClockTerm::Var(k))
}

/// The clock of a name at a place with this clock.
fn told_clock(
    told: Told,
    ck: &ClockTerm,
    arms: &[(u32, u32)],
    scope: &Scope,
) -> Result<ClockTerm, NoMemory> {
    match told {
        Told::Here | Told::Signal | Told::Restarts(_) => ck.copy(scope.alloc),
        Told::Free(k) => Ok(ClockTerm::Var(k)),
        Told::Sampled(c, case) => match scope.names.find(c) {
            Some(c) => sampled(scope.alloc, ck, scope.clock_name(c, arms), case),
            None => ck.copy(scope.alloc),
        },
        Told::Pointwise => Ok(ClockTerm::Pointwise),
        Told::Node(params, result) => {
            let mut done = List::new(scope.alloc);
            for k in params {
                done.push(numbered(scope.alloc, *k, ck)?)?;
            }
            let result = Boxed::new(scope.alloc, numbered(scope.alloc, result, ck)?)?;
            Ok(ClockTerm::Arrow(done, result))
        }
    }
}

/// Whether this tells of a function.
fn is_function(told: Told) -> bool {
    matches!(told, Told::Pointwise | Told::Node(_, _))
}

/// What is told of a name that stands for a function where it is passed: a definition of which
/// nothing is told is pointwise.
fn passed<'a>(x: Name, bound: Binder, scope: &Scope<'a>) -> Option<Told<'a>> {
    match scope.told(x) {
        Told::Here if matches!(bound, Binder::Def(_)) => Some(Told::Pointwise),
        told if is_function(told) => Some(told),
        _ => None,
    }
}

/// The note of an expression.
fn note(
    form: &Form<Plain>,
    ck: &ClockTerm,
    signal: bool,
    arms: &[(u32, u32)],
    scope: &Scope,
) -> Result<Note, NoMemory> {
    let alloc = scope.alloc;
    let bound = match named(form) {
        Some(x) => scope.binder(x, arms),
        None => Binder::Nothing,
    };
    let (ty, ck) = match form {
        Form::Var(x) => match passed(*x, bound, scope) {
            Some(told) => (arrow(alloc)?, told_clock(told, ck, arms, scope)?),
            None => (data(alloc, signal)?, ck.copy(alloc)?),
        },
        _ => (data(alloc, signal)?, ck.copy(alloc)?),
    };
    Ok(Note {
        bound,
        ty,
        ck,
        restarts: List::new(alloc),
    })
}

#[cycle(expr)]
fn expressions(
    all: &[Expr<Plain>],
    ck: &ClockTerm,
    arms: &[(u32, u32)],
    scope: &Scope,
) -> Result<List<Expr<Note>>, NoMemory> {
    let mut done = List::new(scope.alloc);
    for e in all {
        done.push(expression(e, ck, arms, scope)?)?;
    }
    Ok(done)
}

/// The arguments of a call of this head, whose parameters may have clocks of their own.
#[cycle(expr)]
fn arguments(
    head: Name,
    all: &[Expr<Plain>],
    ck: &ClockTerm,
    arms: &[(u32, u32)],
    scope: &Scope,
) -> Result<List<Expr<Note>>, NoMemory> {
    let clocks = match scope.told(head) {
        Told::Node(clocks, _) => clocks,
        _ => &[],
    };
    let mut done = List::new(scope.alloc);
    let mut k = 0;
    for e in all {
        let inner = match clocks.get(k) {
            Some(number) => numbered(scope.alloc, *number, ck)?,
            None => ck.copy(scope.alloc)?,
        };
        done.push(expression(e, &inner, arms, scope)?)?;
        k = k.saturating_add(1);
    }
    Ok(done)
}

/// The branches of a `merge` on the clock name m.
#[cycle(expr)]
fn branches(
    all: &[(Case, Expr<Plain>)],
    m: u32,
    ck: &ClockTerm,
    arms: &[(u32, u32)],
    scope: &Scope,
) -> Result<List<(Case, Expr<Note>)>, NoMemory> {
    let mut done = List::new(scope.alloc);
    for choice in all {
        let inner = sampled(scope.alloc, ck, m, case_number(choice.0, scope))?;
        done.push((choice.0, expression(&choice.1, &inner, arms, scope)?))?;
    }
    Ok(done)
}

#[cycle(expr)]
fn condition(
    e: &Option<Expr<Plain>>,
    ck: &ClockTerm,
    arms: &[(u32, u32)],
    scope: &Scope,
) -> Result<Option<Expr<Note>>, NoMemory> {
    match e {
        None => Ok(None),
        Some(e) => Ok(Some(expression(e, ck, arms, scope)?)),
    }
}

/// An expression on a clock, which is no signal.
#[cycle(expr)]
fn expression(
    e: &Expr<Plain>,
    ck: &ClockTerm,
    arms: &[(u32, u32)],
    scope: &Scope,
) -> Result<Expr<Note>, NoMemory> {
    whole(e, false, ck, arms, scope)
}

/// An expression on a clock.
#[cycle(expr)]
fn whole(
    e: &Expr<Plain>,
    signal: bool,
    ck: &ClockTerm,
    arms: &[(u32, u32)],
    scope: &Scope,
) -> Result<Expr<Note>, NoMemory> {
    let form = e.form.get();
    Ok(Expr {
        note: note(form, ck, signal, arms, scope)?,
        form: Boxed::new(scope.alloc, annotated(form, ck, arms, scope)?)?,
    })
}

#[cycle(expr)]
fn annotated(
    form: &Form<Plain>,
    ck: &ClockTerm,
    arms: &[(u32, u32)],
    scope: &Scope,
) -> Result<Form<Note>, NoMemory> {
    match form {
        Form::Leaf(leaf) => Ok(Form::Leaf(*leaf)),
        Form::Case(name) => Ok(Form::Case(*name)),
        Form::Var(name) => Ok(Form::Var(*name)),
        Form::Last(name) => Ok(Form::Last(*name)),
        Form::Asked(name) => Ok(Form::Asked(*name)),
        Form::Op(op, args) => Ok(Form::Op(*op, expressions(args.as_slice(), ck, arms, scope)?)),
        Form::Tuple(parts) => Ok(Form::Tuple(expressions(parts.as_slice(), ck, arms, scope)?)),
        Form::Pre(e) => Ok(Form::Pre(expression(e, ck, arms, scope)?)),
        Form::Fby(a, b) => {
            let first = expression(a, ck, arms, scope)?;
            Ok(Form::Fby(first, expression(b, ck, arms, scope)?))
        }
        Form::Init(a, b) => {
            let first = expression(a, ck, arms, scope)?;
            Ok(Form::Init(first, expression(b, ck, arms, scope)?))
        }
        Form::When(e, name, case) => {
            let fast = outer(scope.alloc, ck)?;
            Ok(Form::When(expression(e, &fast, arms, scope)?, *name, *case))
        }
        Form::Merge(name, choices) => {
            let m = scope.clock_name(*name, arms);
            Ok(Form::Merge(*name, branches(choices.as_slice(), m, ck, arms, scope)?))
        }
        Form::Call {
            run,
            head,
            args,
            every,
        } => Ok(Form::Call {
            run: *run,
            head: *head,
            args: arguments(*head, args.as_slice(), ck, arms, scope)?,
            every: condition(every, ck, arms, scope)?,
        }),
    }
}

/// An expression at a place, on the clock of the place.
fn at_place(e: &Expr<Plain>, at: &At, scope: &Scope) -> Result<Expr<Note>, NoMemory> {
    expression(e, &at.ck, at.arms.as_slice(), scope)
}

// ---- equations

/// What is told of what a pattern binds.
fn told_of<'a>(pat: &Pat, scope: &Scope<'a>) -> Told<'a> {
    match pat {
        Pat::Var(x) => scope.told(*x),
        _ => Told::Here,
    }
}

/// The numbers of the variables at which a right side restarts of which this is told.
fn restarting(told: Told, arms: &[(u32, u32)], scope: &Scope) -> Result<List<u32>, NoMemory> {
    let mut done = List::new(scope.alloc);
    if let Told::Restarts(r) = told {
        if let Some(r) = scope.names.find(r) {
            if let Binder::Var(k) = scope.binder(r, arms) {
                done.push(k)?;
            }
        }
    }
    Ok(done)
}

/// The right side of an equation of which this is told.
fn right(e: &Expr<Plain>, told: Told, at: &At, scope: &Scope) -> Result<Expr<Note>, NoMemory> {
    let arms = at.arms.as_slice();
    let ck = told_clock(told, &at.ck, arms, scope)?;
    let mut done = whole(e, matches!(told, Told::Signal), &ck, arms, scope)?;
    done.note.restarts = restarting(told, arms, scope)?;
    Ok(done)
}

fn plain(pat: &Pat, e: &Expr<Plain>, at: &At, scope: &Scope) -> Result<Equation<Note>, NoMemory> {
    let e = right(e, told_of(pat, scope), at, scope)?;
    Ok(Equation::Plain(pat.copy(scope.alloc)?, e))
}

/// The next clock names of the body, `count` of them: the number of the first.
fn take_names(next: &mut u32, count: u32) -> u32 {
    let first = *next;
    *next = next.saturating_add(count);
    first
}

// Equations stand at a place; `next` is the number of the next clock name.
#[cycle(eqs)]
fn equations(
    all: &[Equation<Plain>],
    at: &At,
    scope: &Scope,
    next: &mut u32,
) -> Result<List<Equation<Note>>, NoMemory> {
    let mut done = List::new(scope.alloc);
    for eq in all {
        done.push(equation(eq, at, scope, next)?)?;
    }
    Ok(done)
}

#[cycle(eqs)]
fn equation(
    eq: &Equation<Plain>,
    at: &At,
    scope: &Scope,
    next: &mut u32,
) -> Result<Equation<Note>, NoMemory> {
    match eq {
        Equation::Plain(pat, e) => plain(pat, e, at, scope),
        Equation::Clock(name, e) => {
            take_names(next, 1);
            Ok(Equation::Clock(*name, at_place(e, at, scope)?))
        }
        Equation::Initial(name, e) => Ok(Equation::Initial(*name, at_place(e, at, scope)?)),
        Equation::Emit(name, e) => {
            Ok(Equation::Emit(*name, right(e, scope.told(*name), at, scope)?))
        }
        Equation::Reset(eqs, e) => {
            let inside = equations(eqs.as_slice(), at, scope, next)?;
            Ok(Equation::Reset(inside, at_place(e, at, scope)?))
        }
        Equation::Match(e, all) => {
            let m = take_names(next, 1);
            let all = arms(all.as_slice(), m, at, scope, next)?;
            Ok(Equation::Match(at_place(e, at, scope)?, all))
        }
        Equation::Present(all, other) => {
            let m = take_names(next, 1);
            let last = all.len() as u32;
            let at = tested(all.as_slice(), at, scope)?;
            let all = tests(all.as_slice(), m, &at, scope, next)?;
            Ok(Equation::Present(all, otherwise(other, m, last, &at, scope, next)?))
        }
        Equation::Automaton(all) => {
            let m = take_names(next, 2);
            Ok(Equation::Automaton(states(all.as_slice(), m, at, scope, next)?))
        }
    }
}

#[cycle(eqs)]
fn arms(
    all: &[Arm<Plain>],
    m: u32,
    at: &At,
    scope: &Scope,
    next: &mut u32,
) -> Result<List<Arm<Note>>, NoMemory> {
    let mut done = List::new(scope.alloc);
    for arm in all {
        let j = done.len() as u32;
        done.push(Arm {
            case: arm.case,
            handler: handler(&arm.handler, m, j, at, scope, next)?,
        })?;
    }
    Ok(done)
}

#[cycle(eqs)]
fn tests(
    all: &[Test<Plain>],
    m: u32,
    at: &At,
    scope: &Scope,
    next: &mut u32,
) -> Result<List<Test<Note>>, NoMemory> {
    let mut done = List::new(scope.alloc);
    for test in all {
        let j = done.len() as u32;
        done.push(Test {
            signal: test.signal,
            pat: test.pat.copy(scope.alloc)?,
            handler: handler(&test.handler, m, j, at, scope, next)?,
        })?;
    }
    Ok(done)
}

#[cycle(eqs)]
fn otherwise(
    other: &Option<Handler<Plain>>,
    m: u32,
    j: u32,
    at: &At,
    scope: &Scope,
    next: &mut u32,
) -> Result<Option<Handler<Note>>, NoMemory> {
    match other {
        None => Ok(None),
        Some(other) => Ok(Some(handler(other, m, j, at, scope, next)?)),
    }
}

/// The place of a `present` with these tests: its clock is the signals'.
fn tested(all: &[Test<Plain>], at: &At, scope: &Scope) -> Result<At, NoMemory> {
    let told = match all {
        [test, ..] => scope.told(test.signal),
        [] => Told::Here,
    };
    let signal = match all {
        [test, ..] => test.signal,
        [] => return at.copy(scope.alloc),
    };
    if matches!(told, Told::Here | Told::Signal) {
        return at.copy(scope.alloc);
    }
    // the clock of the signal in its list, sampled at the arms from there on
    let outer = scope.list_length(signal, at.arms.as_slice());
    let mut ck = told_clock(told, &ClockTerm::Var(0), at.arms.as_slice(), scope)?;
    let mut k: usize = 0;
    for arm in at.arms.as_slice() {
        if k >= outer {
            ck = sampled(scope.alloc, &ck, arm.0, arm.1)?;
        }
        k = k.saturating_add(1);
    }
    let mut done = at.copy(scope.alloc)?;
    done.ck = ck;
    Ok(done)
}

/// The equations of arm j of the block with the clock name m.
#[cycle(eqs)]
fn handler(
    all: &Handler<Plain>,
    m: u32,
    j: u32,
    at: &At,
    scope: &Scope,
    next: &mut u32,
) -> Result<Handler<Note>, NoMemory> {
    let inside = at.within(scope.alloc, m, j)?;
    let locals = equations(all.locals.as_slice(), &inside, scope, next)?;
    let eqs = equations(all.eqs.as_slice(), &inside, scope, next)?;
    Ok(Handler { locals, eqs })
}

/// The states of the automaton with the clock names m, for its bodies and weak guards, and m + 1,
/// for its strong guards.
#[cycle(eqs)]
fn states(
    all: &[State<Plain>],
    m: u32,
    at: &At,
    scope: &Scope,
    next: &mut u32,
) -> Result<List<State<Note>>, NoMemory> {
    let mut done = List::new(scope.alloc);
    for state in all {
        let j = done.len() as u32;
        let inside = handler(&state.handler, m, j, at, scope, next)?;
        let tested = at.within(scope.alloc, m.saturating_add(1), j)?;
        let strong = guards(state.strong.as_slice(), &tested, scope, next)?;
        let active = at.within(scope.alloc, m, j)?;
        let weak = guards(state.weak.as_slice(), &active, scope, next)?;
        done.push(State {
            name: state.name,
            handler: inside,
            strong,
            weak,
        })?;
    }
    Ok(done)
}

#[cycle(eqs)]
fn guards(
    all: &[Guard<Plain>],
    at: &At,
    scope: &Scope,
    next: &mut u32,
) -> Result<List<Guard<Note>>, NoMemory> {
    let mut done = List::new(scope.alloc);
    for guard in all {
        done.push(Guard {
            eqs: equations(guard.eqs.as_slice(), at, scope, next)?,
            cond: at_place(&guard.cond, at, scope)?,
            restart: guard.restart,
            target: guard.target,
        })?;
    }
    Ok(done)
}

// ---- definitions

fn body(all: &BodyOf<Plain>, scope: &Scope) -> Result<BodyOf<Note>, NoMemory> {
    let top = At::top(scope.alloc);
    let mut next = scope.first_name();
    let eqs = equations(all.eqs.as_slice(), &top, scope, &mut next)?;
    Ok(BodyOf {
        result: at_place(&all.result, &top, scope)?,
        eqs,
    })
}

/// The note of a parameter.
fn parameter_note(pat: &Pat, scope: &Scope) -> Result<Note, NoMemory> {
    let alloc = scope.alloc;
    let told = told_of(pat, scope);
    let ty = if is_function(told) {
        arrow(alloc)?
    } else {
        data(alloc, false)?
    };
    Ok(Note {
        bound: Binder::Nothing,
        ty,
        ck: told_clock(told, &ClockTerm::Var(0), &[], scope)?,
        restarts: List::new(alloc),
    })
}

fn parameter_notes(params: &[Pat], scope: &Scope) -> Result<List<Note>, NoMemory> {
    let mut done = List::new(scope.alloc);
    for pat in params {
        done.push(parameter_note(pat, scope)?)?;
    }
    Ok(done)
}

/// An item of a file.
fn definition(
    alloc: Global,
    def: &Def,
    defs: &[Def],
    names: &Names,
    hints: &[Hint],
) -> Result<DefOf<Note>, NoMemory> {
    match def {
        DefOf::Cases { line, name, cases } => Ok(DefOf::Cases {
            line: *line,
            name: *name,
            cases: cases.copy(alloc)?,
        }),
        DefOf::Let {
            line,
            node,
            name,
            params,
            marks,
            body: all,
            ..
        } => {
            let places = find(alloc, params.len() as u32, &Unasked, &Unasked, all)?;
            let scope = Scope {
                def: *name,
                defs,
                names,
                params: params.as_slice(),
                vars: places.vars.as_slice(),
                clocks: places.names.as_slice(),
                hints,
                alloc,
            };
            Ok(DefOf::Let {
                line: *line,
                node: *node,
                name: *name,
                params: params.copy(alloc)?,
                marks: marks.copy(alloc)?,
                notes: parameter_notes(params.as_slice(), &scope)?,
                body: body(all, &scope)?,
            })
        }
    }
}

/// The definitions of a file with their notes.
pub fn annotated_file(
    alloc: Global,
    defs: &[Def],
    names: &Names,
    hints: &[Hint],
) -> Result<List<DefOf<Note>>, NoMemory> {
    let mut done = List::new(alloc);
    for def in defs {
        done.push(definition(alloc, def, defs, names, hints)?)?;
    }
    Ok(done)
}
