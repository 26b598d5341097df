//! Where an expression divides by zero.

ghost use Rattle.std.specs.Prelude.{◌≡◌, ◌++◌, IfOk, OnOk, Some, option_map};
ghost use Rattle.kahn_exprs.specs.Alarms as own;
ghost use Rattle.kahn_exprs.specs.Body as spec;
ghost use Rattle.kahn_exprs.specs.Calls as calls;
ghost use Rattle.kahn_exprs.specs.Context as around;
ghost use Rattle.kahn_model.specs.Alarm as alarm;
ghost use Rattle.kahn_model.specs.Alike.{RowAlike};
ghost use Rattle.kahn_model.specs.Rows as known;
ghost use Rattle.kahn_model.specs.Table as rows;

use crate::body::{Body, on, truth_in};
use crate::calls::{Calls, called_at};
use crate::context::{Argument, Context};
use crate::expressions::{every_row, exprs_rows, values};
use crate::instance::{clocks_noted, head};
use crate::rows::absent_row;
use crate::rules::column;
use crate::table::known;
use kahn_cells::cells::{both, either, known_values, say_case};
use kahn_cells::clocks::is_function;
use kahn_model::Cell;
use ls_ast::{Case, Expr, Form};
use ls_base::{List, NoMemory};
use ls_ops::Op;
use ls_places::Frame;
use ls_sig::{Binder, Note};
use std::alloc::Global;

/// What tells where the bodies that a body calls are alarmed.
pub trait Alarms {
    ghost use Rattle.kahn_exprs.specs.declared.body.Body.{Body};

    ghost can: { Self → Body → Type 0 };

    /// Whether the body of the definition `k` is alarmed, as a truth for each line.
    fn answer(
        &self,
        alloc: Global,
        body: &Body,
        k: u32,
        context: Context,
    ) -> Result<List<Option<Cell>>, NoMemory>
        requires { can self.now body.now }
        ensures { IfOk result (λ r. r ≡ rows.written_row body.now.lines 0 (spec.alarmed body.now k (around.around_of context))) };
}

/// A row without alarm.
#[tactic(auto, using(crate::proofs::Written::one_more))]
fn quiet_row(alloc: Global, lines: u32) -> Result<List<Option<bool>>, NoMemory>
    ensures { IfOk result (λ r. r ≡ rows.written_row lines 0 own.no_alarm) }
{
    let mut done = List::new(alloc);
    for i in 0..lines {
        done.push(Some(false))?;
    }
    Ok(done)
}

/// Whether one of some rows says yes at an instant.
fn any_at(parts: &[List<Option<bool>>], i: usize) -> Option<bool>
    ensures { result ≡ alarm.any_of (own.truths_at i parts.now) }
{
    let mut now = Some(false);
    for row in parts {
        now = either(now, truth_in(row.as_slice(), i));
    }
    now
}

/// Where a row says yes, or one of some others.
#[tactic(auto, using(crate::proofs::Written::one_more))]
fn any_row(
    alloc: Global,
    lines: u32,
    row: &[Option<bool>],
    parts: &[List<Option<bool>>],
) -> Result<List<Option<bool>>, NoMemory>
    ensures { IfOk result (λ r. r ≡ rows.written_row lines 0 (own.any_row row.now parts.now)) }
{
    let mut done = List::new(alloc);
    for i in 0..lines {
        let now = truth_in(row, i as usize);
        done.push(either(now, any_at(parts, i as usize)))?;
    }
    Ok(done)
}

/// Whether an operator with these operands divides by zero.
fn divides(alloc: Global, op: Op, cells: List<Option<Cell>>) -> Result<Option<bool>, NoMemory>
    ensures { IfOk result (λ r. r ≡ known.know (known.know_all cells) (λ cs. Some (own.divides op cs))) }
{
    match known_values(alloc, cells)? {
        None => Ok(None),
        Some(all) => Ok(Some(kahn_cells::values::alarm(alloc, op, all.as_slice())?)),
    }
}

fn operator_alarm(
    alloc: Global,
    body: &Body,
    note: &Note,
    op: Op,
    all: &[List<Option<Cell>>],
    i: usize,
) -> Result<Option<bool>, NoMemory>
    ensures { IfOk result (λ r. r ≡ own.operator_alarm body.now note.now op all.now i) }
{
    let now = divides(alloc, op, column(alloc, all, i)?)?;
    Ok(both(on(body, &note.ck, i), now))
}

/// Where an operator with these operands divides by zero.
#[tactic(auto, using(crate::proofs::Written::one_more))]
fn operator_alarms(
    alloc: Global,
    body: &Body,
    note: &Note,
    op: Op,
    all: &[List<Option<Cell>>],
) -> Result<List<Option<bool>>, NoMemory>
    ensures { IfOk result (λ r. r ≡ rows.written_row body.now.lines 0 (own.operator_alarm body.now note.now op all.now)) }
{
    let mut done = List::new(alloc);
    for i in 0..body.lines {
        done.push(operator_alarm(alloc, body, note, op, all, i as usize)?)?;
    }
    Ok(done)
}

/// The truths of a row of cells.
#[tactic(auto, using(crate::proofs::Written::one_more))]
pub fn yes_row(
    alloc: Global,
    lines: u32,
    cells: &[Option<Cell>],
) -> Result<List<Option<bool>>, NoMemory>
    ensures { IfOk result (λ r. r ≡ rows.written_row lines 0 (own.yes_at cells.now)) }
{
    let mut done = List::new(alloc);
    for i in 0..lines {
        done.push(say_case(1, known(cells, i as usize)))?;
    }
    Ok(done)
}

/// Where the body that is called is alarmed, as truths.
fn target_alarms<A: Alarms>(
    alloc: Global,
    body: &Body,
    alarmed: &A,
    target: Option<(u32, Context)>,
) -> Result<List<Option<Cell>>, NoMemory>
    requires { A.can alarmed.now body.now }
    ensures { IfOk result (λ r. r ≡ rows.written_row body.now.lines 0 (calls.target_row (spec.alarmed body.now) (option_map calls.place_of target))) }
{
    match target {
        None => absent_row(alloc, body.lines),
        Some((k, context)) => alarmed.answer(alloc, body, k, context),
    }
}

/// Where the body that a call at a place runs is alarmed; a function that is only passed runs
/// none.
fn called_alarms<A: Alarms>(
    alloc: Global,
    body: &Body,
    alarmed: &A,
    place: &[Frame],
    note: &Note,
    f: &Argument,
    args: &[Argument],
    every: &Option<List<Option<Cell>>>,
) -> Result<List<Option<bool>>, NoMemory>
    requires { A.can alarmed.now body.now }
    ensures { IfOk result (λ r. RowAlike body.now.lines (rows.cell_in r) (own.called_alarm body.now place.now note.now (around.arg_of f.now) (around.args_of args.now) every.now)) }
{
    if is_function(note) {
        return quiet_row(alloc, body.lines);
    }
    let at = called_at(alloc, body, place, note, f, args, every)?;
    let cells = target_alarms(alloc, body, alarmed, at)?;
    yes_row(alloc, body.lines, cells.as_slice())
}

/// Where the body of a definition without parameter is alarmed, at its bare name.
fn used_alarms<A: Alarms>(
    alloc: Global,
    body: &Body,
    alarmed: &A,
    place: &[Frame],
    note: &Note,
    x: u32,
) -> Result<List<Option<bool>>, NoMemory>
    requires { A.can alarmed.now body.now }
    ensures { IfOk result (λ r. RowAlike body.now.lines (rows.cell_in r) (own.used_alarm body.now place.now note.now x)) }
{
    match note.bound {
        Binder::Def(_) => {
            let f = head(alloc, body, note, x, List::new(alloc))?;
            called_alarms(alloc, body, alarmed, place, note, &f, &[], &None)
        }
        Binder::Var(_) => quiet_row(alloc, body.lines),
        Binder::Param(_) => quiet_row(alloc, body.lines),
        Binder::Nothing => quiet_row(alloc, body.lines),
        Binder::Case(_, _) => quiet_row(alloc, body.lines),
    }
}

/// The alarms of a form apart from those of its parts.
fn own_alarms<C: Calls, A: Alarms>(
    alloc: Global,
    body: &Body,
    call: &C,
    alarmed: &A,
    place: &[Frame],
    form: &Form<Note>,
    note: &Note,
) -> Result<List<Option<bool>>, NoMemory>
    requires calls { C.can call.now body.now }
    requires alarms { A.can alarmed.now body.now }
    ensures { IfOk result (λ r. RowAlike body.now.lines (rows.cell_in r) (own.own_alarm body.now place.now form.now note.now)) }
{
    match form {
        Form::Op(op, args) => {
            let all = exprs_rows(alloc, body, call, place, args.as_slice())?;
            operator_alarms(alloc, body, note, *op, all.as_slice())
        }
        Form::Var(x) => used_alarms(alloc, body, alarmed, place, note, x.0),
        Form::Call {
            head: name,
            args,
            every,
            ..
        } => {
            let all = values(alloc, body, call, place, args.as_slice())?;
            let restarts = every_row(alloc, body, call, place, every)?;
            let clocks = clocks_noted(alloc, args.as_slice())?;
            let f = head(alloc, body, note, name.0, clocks)?;
            called_alarms(
                alloc,
                body,
                alarmed,
                place,
                note,
                &f,
                all.as_slice(),
                &restarts,
            )
        }
        Form::Leaf(_) => quiet_row(alloc, body.lines),
        Form::Case(_) => quiet_row(alloc, body.lines),
        Form::Last(_) => quiet_row(alloc, body.lines),
        Form::Asked(_) => quiet_row(alloc, body.lines),
        Form::Tuple(_) => quiet_row(alloc, body.lines),
        Form::Pre(_) => quiet_row(alloc, body.lines),
        Form::Fby(_, _) => quiet_row(alloc, body.lines),
        Form::Init(_, _) => quiet_row(alloc, body.lines),
        Form::When(_, _, _) => quiet_row(alloc, body.lines),
        Form::Merge(_, _) => quiet_row(alloc, body.lines),
    }
}

/// The alarms of some expressions, after those that are there.
#[cycle(alarms)]
fn add_alarms<C: Calls, A: Alarms>(
    alloc: Global,
    body: &Body,
    call: &C,
    alarmed: &A,
    place: &[Frame],
    all: &[Expr<Note>],
    done: &mut List<List<Option<bool>>>,
) -> Result<(), NoMemory>
    requires calls { C.can call.now body.now }
    requires alarms { A.can alarmed.now body.now }
    ensures { OnOk result (done.new ≡ done.old ++ own.alarm_rows body.now place.now all.now) }
{
    for e in all {
        done.push(alarm_row(alloc, body, call, alarmed, place, e)?)?;
    }
    Ok(())
}

/// The alarms of the branches of a `merge`.
#[cycle(alarms)]
fn add_branch_alarms<C: Calls, A: Alarms>(
    alloc: Global,
    body: &Body,
    call: &C,
    alarmed: &A,
    place: &[Frame],
    all: &[(Case, Expr<Note>)],
    done: &mut List<List<Option<bool>>>,
) -> Result<(), NoMemory>
    requires calls { C.can call.now body.now }
    requires alarms { A.can alarmed.now body.now }
    ensures { OnOk result (done.new ≡ done.old ++ own.branch_alarms body.now place.now all.now) }
{
    for choice in all {
        done.push(alarm_row(alloc, body, call, alarmed, place, &choice.1)?)?;
    }
    Ok(())
}

/// The alarms of the parts of a form.
#[cycle(alarms)]
fn parts_alarms<C: Calls, A: Alarms>(
    alloc: Global,
    body: &Body,
    call: &C,
    alarmed: &A,
    place: &[Frame],
    form: &Form<Note>,
) -> Result<List<List<Option<bool>>>, NoMemory>
    requires calls { C.can call.now body.now }
    requires alarms { A.can alarmed.now body.now }
    ensures { IfOk result (λ r. r ≡ own.parts_alarms body.now place.now form.now) }
{
    let mut done = List::new(alloc);
    match form {
        Form::Leaf(_) => Ok(done),
        Form::Case(_) => Ok(done),
        Form::Var(_) => Ok(done),
        Form::Last(_) => Ok(done),
        Form::Asked(_) => Ok(done),
        Form::Op(_, args) => {
            add_alarms(
                alloc,
                body,
                call,
                alarmed,
                place,
                args.as_slice(),
                &mut done,
            )?;
            Ok(done)
        }
        Form::Tuple(args) => {
            add_alarms(
                alloc,
                body,
                call,
                alarmed,
                place,
                args.as_slice(),
                &mut done,
            )?;
            Ok(done)
        }
        Form::Pre(e) => {
            done.push(alarm_row(alloc, body, call, alarmed, place, e)?)?;
            Ok(done)
        }
        Form::Fby(a, b) => {
            done.push(alarm_row(alloc, body, call, alarmed, place, a)?)?;
            done.push(alarm_row(alloc, body, call, alarmed, place, b)?)?;
            Ok(done)
        }
        Form::Init(a, b) => {
            done.push(alarm_row(alloc, body, call, alarmed, place, a)?)?;
            done.push(alarm_row(alloc, body, call, alarmed, place, b)?)?;
            Ok(done)
        }
        Form::When(e, _, _) => {
            done.push(alarm_row(alloc, body, call, alarmed, place, e)?)?;
            Ok(done)
        }
        Form::Merge(_, choices) => {
            add_branch_alarms(
                alloc,
                body,
                call,
                alarmed,
                place,
                choices.as_slice(),
                &mut done,
            )?;
            Ok(done)
        }
        Form::Call { args, every, .. } => {
            add_alarms(
                alloc,
                body,
                call,
                alarmed,
                place,
                args.as_slice(),
                &mut done,
            )?;
            match every {
                None => Ok(done),
                Some(e) => {
                    done.push(alarm_row(alloc, body, call, alarmed, place, e)?)?;
                    Ok(done)
                }
            }
        }
    }
}

/// Where an expression at a place, a part of it, or a body that it calls divides by zero.
#[cycle(alarms)]
pub fn alarm_row<C: Calls, A: Alarms>(
    alloc: Global,
    body: &Body,
    call: &C,
    alarmed: &A,
    place: &[Frame],
    e: &Expr<Note>,
) -> Result<List<Option<bool>>, NoMemory>
    requires calls { C.can call.now body.now }
    requires alarms { A.can alarmed.now body.now }
    ensures { IfOk result (λ r. r ≡ rows.written_row body.now.lines 0 (spec.alarm_at body.now place.now e.now)) }
{
    let now = own_alarms(alloc, body, call, alarmed, place, e.form.get(), &e.note)?;
    let parts = parts_alarms(alloc, body, call, alarmed, place, e.form.get())?;
    any_row(alloc, body.lines, now.as_slice(), parts.as_slice())
}
