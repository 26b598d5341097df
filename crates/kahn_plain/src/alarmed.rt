//! Where a body is alarmed, by the call depth left.

ghost use Rattle.std.specs.Prelude.{◌≡◌, ◌-◌, ◌<◌, IfOk, Some, false};
ghost use Rattle.kahn_exprs.specs.Context as around;
ghost use Rattle.kahn_model.specs.Alarm as alarm;
ghost use Rattle.ls_places.specs.Definitions.{case_place};
ghost use Rattle.kahn_model.specs.Rows.{either, know};
ghost use Rattle.kahn_model.specs.Table as rows;
ghost use Rattle.kahn_plain.specs.Alarms as own;
ghost use Rattle.kahn_plain.specs.Calls.{Serves};
ghost use Rattle.kahn_plain.specs.Turns as turns;

use crate::depths::{Level, meaning};
use crate::equations::unknown_row;
use crate::turns::table;
use kahn_cells::cells::either;
use kahn_cells::search::nth;
use kahn_cells::{Constructors, Prepared};
use kahn_exprs::{Alarms, Body, Calls, Context, Rows, alarm_row, truth_in};
use kahn_model::{Cell, Value};
use ls_base::{List, NoMemory};
use ls_places::Whole;
use ls_sig::Note;
use ls_value::Leaf;
use std::alloc::Global;

/// No alarm on any line.
#[tactic(auto, using(crate::proofs::Standing::one_more))]
fn no_alarms(alloc: Global, lines: u32) -> Result<List<Option<bool>>, NoMemory>
    ensures { IfOk result (λ r. r ≡ rows.written_row lines 0 (λ i. Some false)) }
{
    let mut done = List::new(alloc);
    for _i in 0..lines {
        done.push(Some(false))?;
    }
    Ok(done)
}

/// An alarm where one of two is.
#[tactic(auto, using(crate::proofs::Standing::one_more))]
fn either_row(
    alloc: Global,
    lines: u32,
    a: &[Option<bool>],
    b: &[Option<bool>],
) -> Result<List<Option<bool>>, NoMemory>
    ensures { IfOk result (λ r. r ≡ rows.written_row lines 0 (λ i. either (rows.cell_in a.now i) (rows.cell_in b.now i))) }
{
    let mut done = List::new(alloc);
    for i in 0..lines {
        done.push(either(truth_in(a, i as usize), truth_in(b, i as usize)))?;
    }
    Ok(done)
}

fn yes_cell(known: Option<bool>) -> Option<Cell>
    ensures { result ≡ know known alarm.yes_cell }
{
    match known {
        None => None,
        Some(yes) => Some(Cell::Present(Value::Leaf(Leaf::Bool(yes)))),
    }
}

/// Alarms as a row of cells.
#[tactic(auto, using(crate::proofs::Standing::one_more))]
fn alarm_cells(
    alloc: Global,
    lines: u32,
    alarms: &[Option<bool>],
) -> Result<List<Option<Cell>>, NoMemory>
    ensures { IfOk result (λ r. r ≡ rows.written_row lines 0 (λ i. know (rows.cell_in alarms.now i) alarm.yes_cell)) }
{
    let mut done = List::new(alloc);
    for i in 0..lines {
        done.push(yes_cell(truth_in(alarms, i as usize)))?;
    }
    Ok(done)
}

/// The alarms of whole expressions, the last one first.
fn any_alarm<C: Calls, A: Alarms>(
    alloc: Global,
    body: &Body,
    call: &C,
    alarmed: &A,
    all: &[Whole<Note>],
) -> Result<List<Option<bool>>, NoMemory>
    requires calls { C.can call.now body.now }
    requires alarms { A.can alarmed.now body.now }
    ensures { IfOk result (λ r. r ≡ rows.written_row body.now.lines 0 (own.any_alarm body.now all.now)) }
{
    let mut done = no_alarms(alloc, body.lines)?;
    for back in 0..all.len() {
        let whole = &all[all.len() - 1 - back];
        let one = alarm_row(
            alloc,
            body,
            call,
            alarmed,
            whole.place.as_slice(),
            &whole.expr,
        )?;
        done = either_row(alloc, body.lines, one.as_slice(), done.as_slice())?;
    }
    Ok(done)
}

/// The alarms of a body: by its table.
fn body_alarms<C: Calls, A: Alarms>(
    alloc: Global,
    body: &Body,
    call: &C,
    alarmed: &A,
) -> Result<List<Option<Cell>>, NoMemory>
    requires calls { Serves (C.can call.now) body.now }
    requires alarms { Serves (A.can alarmed.now) body.now }
    requires numbers { turns.AreNumbered body.now.def.now }
    ensures { IfOk result (λ r. r ≡ rows.written_row body.now.lines 0 (own.alarms body.now)) }
{
    let known = table(alloc, body, call)?;
    let full = Body {
        rows: &known,
        ..*body
    };
    let exprs = body.def.definition().places.exprs.as_slice();
    let any = any_alarm(alloc, &full, call, alarmed, exprs)?;
    alarm_cells(alloc, body.lines, any.as_slice())
}

/// Whether the definition `k` is alarmed in a context, as the network of streams has it, with a
/// truth for each line. Calls nest at most `depth` deep, this one counted.
pub fn alarms(
    alloc: Global,
    file: &Constructors,
    defs: &[Prepared],
    lines: u32,
    depth: u32,
    k: u32,
    context: Context,
) -> Result<List<Option<Cell>>, NoMemory>
    requires { turns.AllNumbered defs.now }
    ensures { IfOk result (λ r. r ≡ rows.written_row lines 0 (alarm.alarms (case_place file.now) defs.now lines depth k (around.around_of context))) }
{
    if depth == 0 {
        return unknown_row(alloc, lines);
    }
    match nth(defs, k as usize) {
        None => unknown_row(alloc, lines),
        Some(def) => {
            let means = |j: u32, c: Context| -> Result<List<Option<Cell>>, NoMemory>
                requires deep { 0 < depth }
                requires numbers { turns.AllNumbered defs.now }
                ensures { IfOk result (λ r. r ≡ rows.written_row lines 0 (rows.meaning (case_place file.entry.now) defs.entry.now lines (depth - 1) j (around.around_of c))) }
            { meaning(alloc, &*file, &*defs, lines, depth - 1, j, c) };
            let below = |j: u32, c: Context| -> Result<List<Option<Cell>>, NoMemory>
                requires deep { 0 < depth }
                requires numbers { turns.AllNumbered defs.now }
                ensures { IfOk result (λ r. r ≡ rows.written_row lines 0 (alarm.alarms (case_place file.entry.now) defs.entry.now lines (depth - 1) j (around.around_of c))) }
            { alarms(alloc, &*file, &*defs, lines, depth - 1, j, c) };
            let call = Level { call: means };
            let alarmed = Level { call: below };
            let rows = Rows::unknown(alloc, def.definition(), 0)?;
            let body = Body {
                file: &*file,
                defs: &*defs,
                lines,
                depth: depth - 1,
                def,
                context: &context,
                rows: &rows,
            };
            body_alarms(alloc, &body, &call, &alarmed)
        }
    }
}
