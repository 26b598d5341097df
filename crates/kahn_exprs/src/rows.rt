//! Rows with a cell for each line.

ghost use Rattle.std.specs.Prelude.{◌≡◌, IfOk};
ghost use Rattle.kahn_exprs.specs.Body as spec;
ghost use Rattle.kahn_exprs.specs.Context as around;
ghost use Rattle.kahn_exprs.specs.Rules as own;
ghost use Rattle.kahn_model.specs.Functions.{nowhere, row_of};
ghost use Rattle.kahn_model.specs.Table as rows;

use crate::body::{Body, active, again, cell_in, on, stream_cell};
use crate::context::Argument;
use crate::table::known;
use kahn_cells::cells::{at, either, say_case};
use kahn_model::Cell;
use ls_base::{List, NoMemory};
use ls_places::Frame;
use ls_terms::ClockTerm;
use std::alloc::Global;

/// Where a clock is on.
#[tactic(auto, using(crate::proofs::Written::one_more))]
pub fn on_row(alloc: Global, body: &Body, ck: &ClockTerm) -> Result<List<Option<bool>>, NoMemory>
    ensures { IfOk result (λ r. r ≡ rows.written_row body.now.lines 0 (spec.on body.now ck.now)) }
{
    let mut done = List::new(alloc);
    for i in 0..body.lines {
        done.push(on(body, ck, i as usize))?;
    }
    Ok(done)
}

/// Where a place is active.
#[tactic(auto, using(crate::proofs::Written::one_more))]
pub fn active_row(
    alloc: Global,
    body: &Body,
    place: &[Frame],
) -> Result<List<Option<bool>>, NoMemory>
    ensures { IfOk result (λ r. r ≡ rows.written_row body.now.lines 0 (spec.active body.now place.now)) }
{
    let mut done = List::new(alloc);
    for i in 0..body.lines {
        done.push(active(body, place, i as usize))?;
    }
    Ok(done)
}

/// Whether a place restarts, or what is called from it by `every`.
fn restart(
    body: &Body,
    place: &[Frame],
    every: &Option<List<Option<Cell>>>,
    i: usize,
) -> Option<bool>
    ensures { result ≡ own.restart body.now place.now every.now i }
{
    let now = again(body, place, i);
    match every {
        None => now,
        Some(cells) => either(now, say_case(1, known(cells.as_slice(), i))),
    }
}

/// Where a place restarts, or what is called from it by `every`.
#[tactic(auto, using(crate::proofs::Written::one_more))]
pub fn restart_row(
    alloc: Global,
    body: &Body,
    place: &[Frame],
    every: &Option<List<Option<Cell>>>,
) -> Result<List<Option<bool>>, NoMemory>
    ensures { IfOk result (λ r. r ≡ rows.written_row body.now.lines 0 (own.restart body.now place.now every.now)) }
{
    let mut done = List::new(alloc);
    for i in 0..body.lines {
        done.push(restart(body, place, every, i as usize))?;
    }
    Ok(done)
}

fn clocked_cell(
    alloc: Global,
    body: &Body,
    ck: &ClockTerm,
    cells: &[Option<Cell>],
    i: usize,
) -> Result<Option<Cell>, NoMemory>
    ensures { IfOk result (λ r. r ≡ own.clocked body.now ck.now cells.now i) }
{
    let c = cell_in(alloc, cells, i)?;
    Ok(at(on(body, ck, i), c))
}

/// A row on its clock.
#[tactic(auto, using(crate::proofs::Written::one_more))]
pub fn clocked_row(
    alloc: Global,
    body: &Body,
    ck: &ClockTerm,
    cells: &[Option<Cell>],
) -> Result<List<Option<Cell>>, NoMemory>
    ensures { IfOk result (λ r. r ≡ rows.written_row body.now.lines 0 (own.clocked body.now ck.now cells.now)) }
{
    let mut done = List::new(alloc);
    for i in 0..body.lines {
        done.push(clocked_cell(alloc, body, ck, cells, i as usize)?)?;
    }
    Ok(done)
}

/// The row of what stands for a parameter: a function is absent.
#[tactic(auto, using(crate::proofs::Written::one_more))]
pub fn stream_row(alloc: Global, lines: u32, arg: &Argument) -> Result<List<Option<Cell>>, NoMemory>
    ensures { IfOk result (λ r. r ≡ rows.written_row lines 0 (row_of (around.arg_of arg.now))) }
{
    let mut done = List::new(alloc);
    for i in 0..lines {
        done.push(stream_cell(alloc, arg, i as usize)?)?;
    }
    Ok(done)
}

/// A row that is absent.
#[tactic(auto, using(crate::proofs::Written::one_more))]
pub fn absent_row(alloc: Global, lines: u32) -> Result<List<Option<Cell>>, NoMemory>
    ensures { IfOk result (λ r. r ≡ rows.written_row lines 0 nowhere) }
{
    let mut done = List::new(alloc);
    for i in 0..lines {
        done.push(Some(Cell::Absent))?;
    }
    Ok(done)
}
