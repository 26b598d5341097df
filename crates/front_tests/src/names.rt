//! The marks of the parameters of a file's definitions, and what the names in their bodies stand
//! for.

use crate::grammar::{Parsed, tree};
use crate::scope::verdict;
use ls_ast::{Arm, BodyOf, Case, DefOf, Equation, Expr, Form, Guard, Handler, Mark, State, Test};
use ls_base::{Name, Names, NoMemory};
use ls_scope::resolve;
use ls_sig::{Binder, Resolved, Use};
use std::alloc::Global;

/// What is listed so far, and the names of the file.
#[derive(Drop)]
struct Listing<'a> {
    alloc: Global,
    names: &'a Names,
    text: String,
}

impl<'a> Listing<'a> {
    fn spelling(&self, x: Name) -> &'a str {
        match self.names.spell(x) {
            Some(text) => text,
            None => "?",
        }
    }

    /// Adds a name with what it stands for.
    fn add(&mut self, x: Name, bound: Binder) -> Result<(), NoMemory> {
        let piece = format!(in self.alloc; " {}={bound:?}", self.spelling(x))?;
        self.text.push_str(piece.as_str())?;
        Ok(())
    }

    /// Begins the line of a definition.
    fn begin(&mut self, name: Name, marks: &[Mark]) -> Result<(), NoMemory> {
        if !self.text.is_empty() {
            self.text.push_str("\n  ")?;
        }
        let spelling = self.spelling(name);
        self.text.push_str(spelling)?;
        self.text.push_str(":")?;
        for mark in marks {
            let piece = format!(in self.alloc; " {mark:?}")?;
            self.text.push_str(piece.as_str())?;
        }
        self.text.push_str(" |")?;
        Ok(())
    }
}

// ---- expressions

#[cycle(expr)]
fn expressions(all: &[Expr<Use>], to: &mut Listing) -> Result<(), NoMemory> {
    for e in all {
        expression(e, to)?;
    }
    Ok(())
}

#[cycle(expr)]
fn branches(all: &[(Case, Expr<Use>)], to: &mut Listing) -> Result<(), NoMemory> {
    for branch in all {
        expression(&branch.1, to)?;
    }
    Ok(())
}

/// Lists the names of an expression.
#[cycle(expr)]
fn expression(e: &Expr<Use>, to: &mut Listing) -> Result<(), NoMemory> {
    let bound = e.note.bound;
    match e.form.get() {
        Form::Leaf(_) => Ok(()),
        Form::Case(x) | Form::Var(x) | Form::Last(x) | Form::Asked(x) => to.add(*x, bound),
        Form::Op(_, all) | Form::Tuple(all) => expressions(all.as_slice(), to),
        Form::Pre(of) => expression(of, to),
        Form::Fby(first, next) | Form::Init(first, next) => {
            expression(first, to)?;
            expression(next, to)
        }
        Form::When(of, x, _) => {
            expression(of, to)?;
            to.add(*x, bound)
        }
        Form::Merge(x, all) => {
            to.add(*x, bound)?;
            branches(all.as_slice(), to)
        }
        Form::Call {
            head,
            args,
            every,
            ..
        } => {
            to.add(*head, bound)?;
            expressions(args.as_slice(), to)?;
            match every {
                Some(every) => expression(every, to),
                None => Ok(()),
            }
        }
    }
}

// ---- equations

fn guards(all: &[Guard<Use>], to: &mut Listing) -> Result<(), NoMemory> {
    for guard in all {
        expression(&guard.cond, to)?;
    }
    Ok(())
}

#[cycle(eqs)]
fn equations(all: &[Equation<Use>], to: &mut Listing) -> Result<(), NoMemory> {
    for eq in all {
        equation(eq, to)?;
    }
    Ok(())
}

#[cycle(eqs)]
fn equation(eq: &Equation<Use>, to: &mut Listing) -> Result<(), NoMemory> {
    match eq {
        Equation::Plain(_, e) => expression(e, to),
        Equation::Clock(_, e) | Equation::Initial(_, e) | Equation::Emit(_, e) => expression(e, to),
        Equation::Reset(all, e) => {
            equations(all.as_slice(), to)?;
            expression(e, to)
        }
        Equation::Match(e, all) => {
            expression(e, to)?;
            arms(all.as_slice(), to)
        }
        Equation::Present(all, other) => {
            tests(all.as_slice(), to)?;
            match other {
                Some(other) => handler(other, to),
                None => Ok(()),
            }
        }
        Equation::Automaton(all) => states(all.as_slice(), to),
    }
}

#[cycle(eqs)]
fn handler(of: &Handler<Use>, to: &mut Listing) -> Result<(), NoMemory> {
    equations(of.locals.as_slice(), to)?;
    equations(of.eqs.as_slice(), to)
}

#[cycle(eqs)]
fn arms(all: &[Arm<Use>], to: &mut Listing) -> Result<(), NoMemory> {
    for arm in all {
        handler(&arm.handler, to)?;
    }
    Ok(())
}

#[cycle(eqs)]
fn tests(all: &[Test<Use>], to: &mut Listing) -> Result<(), NoMemory> {
    for test in all {
        handler(&test.handler, to)?;
    }
    Ok(())
}

#[cycle(eqs)]
fn states(all: &[State<Use>], to: &mut Listing) -> Result<(), NoMemory> {
    for state in all {
        handler(&state.handler, to)?;
        guards(state.strong.as_slice(), to)?;
        guards(state.weak.as_slice(), to)?;
    }
    Ok(())
}

fn definition(
    name: Name,
    marks: &[Mark],
    body: &BodyOf<Use>,
    to: &mut Listing,
) -> Result<(), NoMemory> {
    to.begin(name, marks)?;
    expression(&body.result, to)?;
    equations(body.eqs.as_slice(), to)
}

fn listed(alloc: Global, file: &Resolved) -> Result<String, NoMemory> {
    let mut to = Listing {
        alloc,
        names: &file.names,
        text: String::new(alloc),
    };
    for def in file.defs.as_slice() {
        if let DefOf::Let {
            name,
            marks,
            body,
            ..
        } = def
        {
            definition(*name, marks.as_slice(), body, &mut to)?;
        }
    }
    Ok(to.text)
}

/// A line for each definition of a source: the marks of its parameters, and the names in its result
/// and in its equations, in the order of the text, with what they stand for. Or the fault.
pub fn answer(alloc: Global, source: &[u8]) -> Result<String, NoMemory> {
    let Parsed::File(file) = tree(alloc, source)? else {
        return Ok(String::from_str(alloc, "no file")?);
    };
    let resolved = resolve(alloc, &file);
    match &resolved {
        Ok(found) => listed(alloc, found),
        Err(_) => verdict(alloc, &resolved),
    }
}
