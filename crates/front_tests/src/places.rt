//! What stands where in two bodies, and in two large ones.

ghost use Rattle.std.specs.Prelude.{◌≡◌, ◌==◌, true, false, Some, None, if◌then◌else◌};

use ls_ast::{Arm, BodyOf, Equation, Expr, Form, Guard, Handler, Pat, State, Test};
use ls_base::{Boxed, List, Name, NoMemory, NoteCopy};
use ls_places::{CasePlaces, NoteSignals, Places, find, variables};
use ls_sig::SignalNote;
use std::alloc::Global;
use tree_notes::{Counter, renote_body};

/// A note that says no more than whether the expression is a signal.
#[derive(Clone, Copy, Debug)]
struct Sig(bool);

impl NoteCopy for Sig {
    fn copy(&self, _alloc: Global) -> Result<Sig, NoMemory> {
        Ok(*self)
    }
}

impl SignalNote for Sig {
    ghost signal = { λ n. n.0 };

    fn is_signal(&self) -> bool {
        self.0
    }
}

/// A constructor of this name, in the place 3 of its enumeration.
struct Third(u32);

impl CasePlaces for Third {
    ghost use Rattle.std.specs.Prelude.{◌==◌, Some, None, if◌then◌else◌};

    ghost place = { λ it x. if x == it.0 then Some 3 else None };

    fn place(&self, name: u32) -> Option<u32> {
        if name == self.0 { Some(3) } else { None }
    }
}

fn var(alloc: Global, signal: bool, name: u32) -> Result<Expr<Sig>, NoMemory> {
    Ok(Expr {
        note: Sig(signal),
        form: Boxed::new(alloc, Form::Var(Name(name)))?,
    })
}

// `name = right`
fn plain(alloc: Global, name: u32, right: u32) -> Result<Equation<Sig>, NoMemory> {
    Ok(Equation::Plain(Pat::Var(Name(name)), var(alloc, false, right)?))
}

fn one<T: Drop>(alloc: Global, item: T) -> Result<List<T>, NoMemory> {
    let mut list = List::new(alloc);
    list.push(item)?;
    Ok(list)
}

// `do eq done`
fn doing(alloc: Global, eq: Equation<Sig>) -> Result<Handler<Sig>, NoMemory> {
    Ok(Handler {
        locals: List::new(alloc),
        eqs: one(alloc, eq)?,
    })
}

// `match e11 with A5 -> let x2 = e12 in do x0 = e13 done | _ -> do x0 = e14 done end`
fn selection(alloc: Global) -> Result<Equation<Sig>, NoMemory> {
    let handler = Handler {
        locals: one(alloc, plain(alloc, 2, 12)?)?,
        eqs: one(alloc, plain(alloc, 0, 13)?)?,
    };
    let mut arms = List::new(alloc);
    arms.push(Arm {
        case: Some(Name(5)),
        handler,
    })?;
    arms.push(Arm {
        case: None,
        handler: doing(alloc, plain(alloc, 0, 14)?)?,
    })?;
    Ok(Equation::Match(var(alloc, false, 11)?, arms))
}

// `e18 where rec match .. and reset x1 = e15 every e16 and last x0 = e17`
fn first_body(alloc: Global) -> Result<BodyOf<Sig>, NoMemory> {
    let mut eqs = List::new(alloc);
    eqs.push(selection(alloc)?)?;
    let inside = one(alloc, plain(alloc, 1, 15)?)?;
    eqs.push(Equation::Reset(inside, var(alloc, false, 16)?))?;
    eqs.push(Equation::Initial(Name(0), var(alloc, false, 17)?))?;
    Ok(BodyOf {
        result: var(alloc, false, 18)?,
        eqs,
    })
}

fn guard(
    alloc: Global,
    eqs: List<Equation<Sig>>,
    cond: u32,
    restart: bool,
) -> Result<Guard<Sig>, NoMemory> {
    Ok(Guard {
        eqs,
        cond: var(alloc, false, cond)?,
        restart,
        target: Name(21),
    })
}

// `automaton S20 -> do x0 = e31 unless x2 = e32 in e33 then S21 until e34 continue S21
// | S21 -> do x0 = e35 done end`
fn machine(alloc: Global) -> Result<Equation<Sig>, NoMemory> {
    let strong = guard(alloc, one(alloc, plain(alloc, 2, 32)?)?, 33, true)?;
    let weak = guard(alloc, List::new(alloc), 34, false)?;
    let mut states = List::new(alloc);
    states.push(State {
        name: Name(20),
        handler: doing(alloc, plain(alloc, 0, 31)?)?,
        strong: one(alloc, strong)?,
        weak: one(alloc, weak)?,
    })?;
    states.push(State {
        name: Name(21),
        handler: doing(alloc, plain(alloc, 0, 35)?)?,
        strong: List::new(alloc),
        weak: List::new(alloc),
    })?;
    Ok(Equation::Automaton(states))
}

// `present s7(x6) -> do emit s8 = e36 done else do x1 = e37 done end`
fn presence(alloc: Global) -> Result<Equation<Sig>, NoMemory> {
    let emitted = Equation::Emit(Name(8), var(alloc, false, 36)?);
    let test = Test {
        signal: Name(7),
        pat: Some(Pat::Var(Name(6))),
        handler: doing(alloc, emitted)?,
    };
    let other = Some(doing(alloc, plain(alloc, 1, 37)?)?);
    Ok(Equation::Present(one(alloc, test)?, other))
}

// `e40 where rec automaton .. and present .. and clock c9 = e38 and (x10, _) = e39`
fn second_body(alloc: Global) -> Result<BodyOf<Sig>, NoMemory> {
    let mut eqs = List::new(alloc);
    eqs.push(machine(alloc)?)?;
    eqs.push(presence(alloc)?)?;
    eqs.push(Equation::Clock(Name(9), var(alloc, false, 38)?))?;
    let mut parts = one(alloc, Pat::Var(Name(10)))?;
    parts.push(Pat::Any)?;
    eqs.push(Equation::Plain(Pat::Tuple(parts), var(alloc, true, 39)?))?;
    Ok(BodyOf {
        result: var(alloc, false, 40)?,
        eqs,
    })
}

/// What stands in a body.
fn text(alloc: Global, first: u32, body: &BodyOf<Sig>) -> Result<String, NoMemory> {
    let found: Places<Sig> = find(alloc, first, &Third(5), &NoteSignals, body)?;
    Ok(format!(in alloc; "{:?}", found)?)
}

/// How many names the large bodies bind.
const MANY: u32 = 100_000;

// `x0 where rec x0 = x0 and x1 = x1 and ..`
fn many_equations(alloc: Global) -> Result<BodyOf<Sig>, NoMemory> {
    let mut eqs = List::new(alloc);
    for x in 0..MANY {
        eqs.push(plain(alloc, x, x)?)?;
    }
    Ok(BodyOf {
        result: var(alloc, false, 0)?,
        eqs,
    })
}

// `x0 where rec (x0, x1, ..) = (x0, x1, ..)`
fn many_names(alloc: Global) -> Result<BodyOf<Sig>, NoMemory> {
    let mut pats = List::new(alloc);
    let mut parts = List::new(alloc);
    for x in 0..MANY {
        pats.push(Pat::Var(Name(x)))?;
        parts.push(var(alloc, false, x)?)?;
    }
    let tuple = Expr {
        note: Sig(false),
        form: Boxed::new(alloc, Form::Tuple(parts))?,
    };
    Ok(BodyOf {
        result: var(alloc, false, 0)?,
        eqs: one(alloc, Equation::Plain(Pat::Tuple(pats), tuple))?,
    })
}

/// The numbers of equations, of variables and of expressions, and of the last equation's variables.
fn counts(alloc: Global, body: &BodyOf<Sig>) -> Result<String, NoMemory> {
    let found = find(alloc, 0, &Third(5), &NoteSignals, body)?;
    let last = match found.sites.as_slice() {
        [.., site] => site.vars.len(),
        [] => 0,
    };
    let (sites, vars, exprs) = (found.sites.len(), found.vars.len(), found.exprs.len());
    Ok(format!(in alloc; "{sites} {vars} {exprs} {last}")?)
}

/// The number of the variable of a name in no arm.
fn number_of(alloc: Global, name: u32, body: &BodyOf<Sig>) -> Result<String, NoMemory> {
    let found = variables(alloc, 0, &Third(5), &NoteSignals, body)?;
    Ok(format!(in alloc; "{:?}", found.place_of(alloc, name, &[])?)?)
}

/// How many notes a body has, as it is rebuilt with their numbers.
fn renumbered(alloc: Global, body: &BodyOf<Sig>) -> Result<String, NoMemory> {
    let mut count = Counter { next: 0 };
    let _numbered: BodyOf<u32> = renote_body(alloc, body, &mut count)?;
    Ok(format!(in alloc; "{}", count.next)?)
}

/// The answer to a question about a body. The first has two parameters and the second one.
pub fn answer(alloc: Global, of: &str) -> Result<String, NoMemory> {
    match of {
        "match, reset and last" => text(alloc, 2, &first_body(alloc)?),
        "automaton, present and clock" => text(alloc, 1, &second_body(alloc)?),
        "many equations" => counts(alloc, &many_equations(alloc)?),
        "many names" => counts(alloc, &many_names(alloc)?),
        "last of many names" => number_of(alloc, 99_999, &many_names(alloc)?),
        "many equations rebuilt" => renumbered(alloc, &many_equations(alloc)?),
        "many names rebuilt" => renumbered(alloc, &many_names(alloc)?),
        _ => Ok(String::from_str(alloc, "no such question")?),
    }
}
