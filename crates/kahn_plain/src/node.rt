//! The rows of a node that is run: its result and its alarms.

ghost use Rattle.std.specs.Prelude.{◌≡◌, IfOk, Some, map};
ghost use Rattle.kahn_exprs.specs.declared.context.Argument.TheVariants.{Stream};
ghost use Rattle.kahn_model.specs.Alarm as alarm;
ghost use Rattle.ls_places.specs.Definitions.{case_place};
ghost use Rattle.kahn_model.specs.Table as rows;
ghost use Rattle.kahn_plain.specs.Node as own;
ghost use Rattle.kahn_plain.specs.Turns as turns;

use crate::alarmed::alarms;
use crate::depths::meaning;
use kahn_cells::{Constructors, Prepared};
use kahn_exprs::{Argument, Clocks, Context, copy_cells, yes_row};
use kahn_model::{Cell, laws};
use ls_base::{List, NoMemory};
use std::alloc::Global;

/// What a node gives, with a cell and a truth for each line.
#[derive(Debug, Drop)]
pub struct Answer {
    pub row: List<Option<Cell>>,
    /// Whether the line is alarmed.
    pub alarms: List<Option<bool>>,
}

#[tactic(auto, using(crate::proofs::Standing::one_more))]
fn truth_row(alloc: Global, lines: u32, truth: bool) -> Result<List<Option<bool>>, NoMemory>
    ensures { IfOk result (λ r. r ≡ rows.written_row lines 0 (λ i. Some truth)) }
{
    let mut done = List::new(alloc);
    for _i in 0..lines {
        done.push(Some(truth))?;
    }
    Ok(done)
}

/// Rows as what stands for parameters.
fn streams(alloc: Global, args: &[List<Option<Cell>>]) -> Result<List<Argument>, NoMemory>
    ensures { IfOk result (λ r. r ≡ map Stream args.now) }
{
    let mut done = List::new(alloc);
    for cells in args {
        done.push(Argument::Stream(copy_cells(alloc, cells.as_slice())?))?;
    }
    Ok(done)
}

/// What is around a node: it is always active, never restarts, and all its clock variables are on.
fn run_context(alloc: Global, lines: u32, args: &[List<Option<Cell>>]) -> Result<Context, NoMemory>
    ensures { IfOk result (λ r. r ≡ own.run_context lines args.now) }
{
    Ok(Context {
        active: truth_row(alloc, lines, true)?,
        again: truth_row(alloc, lines, false)?,
        clocks: Clocks::All(truth_row(alloc, lines, true)?),
        args: streams(alloc, args)?,
    })
}

/// The row of the result of a node.
fn node_row(
    alloc: Global,
    file: &Constructors,
    defs: &[Prepared],
    lines: u32,
    k: u32,
    args: &[List<Option<Cell>>],
) -> Result<List<Option<Cell>>, NoMemory>
    requires { turns.AllNumbered defs.now }
    ensures { IfOk result (λ r. r ≡ rows.written_row lines 0 (rows.network (case_place file.now) defs.now lines k (own.streams args.now))) }
{
    let context = run_context(alloc, lines, args)?;
    laws::meanings_go_by_their_lines();
    meaning(alloc, file, defs, lines, 201, k, context)
}

/// The alarms of a node.
fn node_alarms(
    alloc: Global,
    file: &Constructors,
    defs: &[Prepared],
    lines: u32,
    k: u32,
    args: &[List<Option<Cell>>],
) -> Result<List<Option<bool>>, NoMemory>
    requires { turns.AllNumbered defs.now }
    ensures { IfOk result (λ r. r ≡ rows.written_row lines 0 (alarm.network_alarm (case_place file.now) defs.now lines k (own.streams args.now))) }
{
    let context = run_context(alloc, lines, args)?;
    laws::meanings_go_by_their_lines();
    let cells = alarms(alloc, file, defs, lines, 201, k, context)?;
    yes_row(alloc, lines, cells.as_slice())
}

/// The row of the result of the definition `k`, run as a node on the rows of its parameters, and
/// its alarms, as the network of streams of the program gives them. Calls nest at most 200 deep;
/// below that nothing is known. A row that ends before the last line is not known from there on.
pub fn network(
    alloc: Global,
    file: &Constructors,
    defs: &[Prepared],
    lines: u32,
    k: u32,
    args: List<List<Option<Cell>>>,
) -> Result<Answer, NoMemory>
    requires { turns.AllNumbered defs.now }
    ensures row { IfOk result (λ r. r.row ≡ rows.written_row lines 0 (rows.network (case_place file.now) defs.now lines k (own.streams args))) }
    ensures alarms { IfOk result (λ r. r.alarms ≡ rows.written_row lines 0 (alarm.network_alarm (case_place file.now) defs.now lines k (own.streams args))) }
{
    let row = node_row(alloc, file, defs, lines, k, args.as_slice())?;
    let alarms = node_alarms(alloc, file, defs, lines, k, args.as_slice())?;
    Ok(Answer { row, alarms })
}
