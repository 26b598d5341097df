//! The row of an expression at a place.

ghost use Rattle.std.specs.Prelude.{◌≡◌, IfOk, map, option_map};
ghost use Rattle.kahn_exprs.specs.Body as spec;
ghost use Rattle.kahn_exprs.specs.Calls.{called as called_arg};
ghost use Rattle.kahn_exprs.specs.Context as around;
ghost use Rattle.kahn_exprs.specs.Values as own;
ghost use Rattle.kahn_model.specs.Alike.{ArgAlike, ArgsAlike};
ghost use Rattle.kahn_model.specs.Functions.{args_said};
ghost use Rattle.kahn_model.specs.Table as rows;

use crate::body::Body;
use crate::calls::{Calls, called};
use crate::context::{Argument, copy_argument};
use crate::instance::{clocks_noted, head};
use crate::rows::{clocked_row, stream_row};
use crate::rules::{Rule, rule_row};
use crate::streams::look;
use kahn_model::Cell;
use ls_ast::{Case, Expr, Form};
use ls_base::{List, NoMemory};
use ls_places::Frame;
use ls_sig::{Binder, Note};
use std::alloc::Global;

/// What stands at a form by its rule.
fn ruled(
    alloc: Global,
    body: &Body,
    place: &[Frame],
    note: &Note,
    rule: &Rule,
) -> Result<Argument, NoMemory>
    ensures { IfOk result (λ r. around.arg_of r ≡ own.ruled body.now place.now note.now rule.now) }
{
    Ok(Argument::Stream(rule_row(alloc, body, place, note, rule)?))
}

/// The row of a name that is no definition.
fn look_row(
    alloc: Global,
    body: &Body,
    bound: Binder,
    x: u32,
) -> Result<List<Option<Cell>>, NoMemory>
    ensures { IfOk result (λ r. r ≡ own.look_row body.now bound x) }
{
    let arg = look(alloc, body, bound, x)?;
    stream_row(alloc, body.lines, &arg)
}

/// What stands at a bare name: a definition without parameter is called.
fn used<C: Calls>(
    alloc: Global,
    body: &Body,
    call: &C,
    place: &[Frame],
    note: &Note,
    x: u32,
) -> Result<Argument, NoMemory>
    requires { C.can call.now body.now }
    ensures { IfOk result (λ r. around.arg_of r ≡ own.used body.now place.now note.now x) }
{
    match note.bound {
        Binder::Def(_) => {
            let f = head(alloc, body, note, x, List::new(alloc))?;
            called(alloc, body, call, place, note, f, List::new(alloc), None)
        }
        Binder::Var(k) => look(alloc, body, Binder::Var(k), x),
        Binder::Param(k) => look(alloc, body, Binder::Param(k), x),
        Binder::Nothing => look(alloc, body, Binder::Nothing, x),
        Binder::Case(t, k) => look(alloc, body, Binder::Case(t, k), x),
    }
}

/// What stands at an expression, by its form: a stream on its clock, or a function.
fn on_clock(alloc: Global, body: &Body, note: &Note, arg: Argument) -> Result<Argument, NoMemory>
    ensures { IfOk result (λ r. around.arg_of r ≡ own.on_clock body.now note.now (around.arg_of arg)) }
{
    match &arg {
        Argument::Stream(cells) => Ok(Argument::Stream(clocked_row(
            alloc,
            body,
            &note.ck,
            cells.as_slice(),
        )?)),
        Argument::Function(_, _) => copy_argument(alloc, &arg),
        Argument::Pointwise(_) => copy_argument(alloc, &arg),
        Argument::Given(_, _) => copy_argument(alloc, &arg),
    }
}

/// The rows of some expressions.
#[cycle(value)]
pub fn exprs_rows<C: Calls>(
    alloc: Global,
    body: &Body,
    call: &C,
    place: &[Frame],
    all: &[Expr<Note>],
) -> Result<List<List<Option<Cell>>>, NoMemory>
    requires { C.can call.now body.now }
    ensures { IfOk result (λ r. r ≡ own.rows body.now place.now all.now) }
{
    let mut done = List::new(alloc);
    for e in all {
        done.push(row(alloc, body, call, place, e)?)?;
    }
    Ok(done)
}

/// The rows of the branches of a `merge`.
#[cycle(value)]
fn branch_rows<C: Calls>(
    alloc: Global,
    body: &Body,
    call: &C,
    place: &[Frame],
    all: &[(Case, Expr<Note>)],
) -> Result<List<List<Option<Cell>>>, NoMemory>
    requires { C.can call.now body.now }
    ensures { IfOk result (λ r. r ≡ own.branch_rows body.now place.now all.now) }
{
    let mut done = List::new(alloc);
    for choice in all {
        done.push(row(alloc, body, call, place, &choice.1)?)?;
    }
    Ok(done)
}

/// What stands at some expressions.
#[cycle(value)]
pub fn values<C: Calls>(
    alloc: Global,
    body: &Body,
    call: &C,
    place: &[Frame],
    all: &[Expr<Note>],
) -> Result<List<Argument>, NoMemory>
    requires { C.can call.now body.now }
    ensures { IfOk result (λ r. ArgsAlike body.now.lines (around.args_of r) (args_said (map (spec.said body.now place.now) all.now))) }
{
    let mut done = List::new(alloc);
    for e in all {
        done.push(value(alloc, body, call, place, e)?)?;
    }
    Ok(done)
}

/// The row of what stands after `every`.
#[cycle(value)]
pub fn every_row<C: Calls>(
    alloc: Global,
    body: &Body,
    call: &C,
    place: &[Frame],
    every: &Option<Expr<Note>>,
) -> Result<Option<List<Option<Cell>>>, NoMemory>
    requires { C.can call.now body.now }
    ensures { IfOk result (λ r. r ≡ option_map (own.row body.now place.now) every.now) }
{
    match every {
        None => Ok(None),
        Some(e) => Ok(Some(row(alloc, body, call, place, e)?)),
    }
}

/// What stands at a form with this note.
#[cycle(value)]
fn form_value<C: Calls>(
    alloc: Global,
    body: &Body,
    call: &C,
    place: &[Frame],
    form: &Form<Note>,
    note: &Note,
) -> Result<Argument, NoMemory>
    requires { C.can call.now body.now }
    ensures { IfOk result (λ r. ArgAlike body.now.lines (around.arg_of r) (spec.said_form body.now place.now form.now note.now)) }
{
    match form {
        Form::Leaf(leaf) => ruled(alloc, body, place, note, &Rule::Leaf(*leaf)),
        Form::Case(_) => ruled(alloc, body, place, note, &Rule::Case(note.bound)),
        Form::Var(x) => used(alloc, body, call, place, note, x.0),
        Form::Last(_) => ruled(alloc, body, place, note, &Rule::Last(note.bound)),
        Form::Asked(x) => {
            let c = look_row(alloc, body, note.bound, x.0)?;
            ruled(alloc, body, place, note, &Rule::Asked(c.as_slice()))
        }
        Form::Op(op, args) => {
            let all = exprs_rows(alloc, body, call, place, args.as_slice())?;
            ruled(
                alloc,
                body,
                place,
                note,
                &Rule::Operator(*op, all.as_slice()),
            )
        }
        Form::Tuple(args) => {
            let all = exprs_rows(alloc, body, call, place, args.as_slice())?;
            ruled(alloc, body, place, note, &Rule::Tuple(all.as_slice()))
        }
        Form::Pre(e) => {
            let cells = row(alloc, body, call, place, e)?;
            ruled(alloc, body, place, note, &Rule::Pre(cells.as_slice()))
        }
        Form::Fby(a, b) => {
            let x = row(alloc, body, call, place, a)?;
            let y = row(alloc, body, call, place, b)?;
            ruled(
                alloc,
                body,
                place,
                note,
                &Rule::Fby(x.as_slice(), y.as_slice()),
            )
        }
        Form::Init(a, b) => {
            let x = row(alloc, body, call, place, a)?;
            let y = row(alloc, body, call, place, b)?;
            ruled(
                alloc,
                body,
                place,
                note,
                &Rule::Init(x.as_slice(), y.as_slice()),
            )
        }
        Form::When(e, _, _) => Ok(Argument::Stream(row(alloc, body, call, place, e)?)),
        Form::Merge(x, choices) => {
            let c = look_row(alloc, body, note.bound, x.0)?;
            let all = branch_rows(alloc, body, call, place, choices.as_slice())?;
            let rule = Rule::Merge(c.as_slice(), choices.as_slice(), all.as_slice());
            ruled(alloc, body, place, note, &rule)
        }
        Form::Call {
            head: name,
            args,
            every,
            ..
        } => {
            let all = values(alloc, body, call, place, args.as_slice())?;
            let restarts = every_row(alloc, body, call, place, every)?;
            let clocks = clocks_noted(alloc, args.as_slice())?;
            let f = head(alloc, body, note, name.0, clocks)?;
            called(alloc, body, call, place, note, f, all, restarts)
        }
    }
}

/// What stands at an expression at a place.
#[cycle(value)]
fn value<C: Calls>(
    alloc: Global,
    body: &Body,
    call: &C,
    place: &[Frame],
    e: &Expr<Note>,
) -> Result<Argument, NoMemory>
    requires { C.can call.now body.now }
    ensures { IfOk result (λ r. ArgAlike body.now.lines (around.arg_of r) (own.value body.now place.now e.now)) }
{
    let arg = form_value(alloc, body, call, place, e.form.get(), &e.note)?;
    on_clock(alloc, body, &e.note, arg)
}

/// The row of an expression at a place, with a cell for each line.
#[cycle(value)]
pub fn row<C: Calls>(
    alloc: Global,
    body: &Body,
    call: &C,
    place: &[Frame],
    e: &Expr<Note>,
) -> Result<List<Option<Cell>>, NoMemory>
    requires { C.can call.now body.now }
    ensures { IfOk result (λ r. r ≡ rows.written_row body.now.lines 0 (spec.cell body.now place.now e.now)) }
{
    let arg = value(alloc, body, call, place, e)?;
    stream_row(alloc, body.lines, &arg)
}
