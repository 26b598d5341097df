//! What a cell says, and cells on a clock.

ghost use Rattle.std.specs.Prelude.{◌≡◌, IfOk, Some};
ghost use Rattle.std.specs.Option.{option_copied};
ghost use Rattle.kahn_model.specs.Cells as spec;
ghost use Rattle.kahn_model.specs.Rows as rows;

use crate::values::{case_of, copy_value, nil, pick};
use kahn_model::{Cell, Value};
use ls_ast::Pat;
use ls_base::{List, NoMemory};
use std::alloc::Global;

/// An equal cell.
pub fn copy_cell(alloc: Global, c: &Cell) -> Result<Cell, NoMemory>
    ensures { IfOk result (λ r. r ≡ c.now) }
{
    match c {
        Cell::Absent => Ok(Cell::Absent),
        Cell::Silent => Ok(Cell::Silent),
        Cell::Present(w) => Ok(Cell::Present(copy_value(alloc, w)?)),
        Cell::Chosen(j, restart) => Ok(Cell::Chosen(*j, *restart)),
    }
}

/// An equal cell, where it is known.
pub fn copy_known(alloc: Global, c: Option<&Cell>) -> Result<Option<Cell>, NoMemory>
    ensures { IfOk result (λ r. r ≡ option_copied c.entry) }
{
    match c {
        None => Ok(None),
        Some(c) => Ok(Some(copy_cell(alloc, c)?)),
    }
}

/// Whether a condition, a scrutinee or a block says the case `k`.
pub fn is_case(k: u32, c: &Cell) -> bool
    ensures { result ≡ spec.is_case k c.now }
{
    match c {
        Cell::Present(w) => match case_of(w) {
            Some(j) => j == k,
            None => false,
        },
        Cell::Chosen(Some(j), _) => *j == k,
        Cell::Chosen(None, _) => false,
        Cell::Absent => false,
        Cell::Silent => false,
    }
}

/// Whether a block starts its arm `k` anew.
pub fn restarts(k: u32, c: &Cell) -> bool
    ensures { result ≡ spec.restarts k c.now }
{
    match c {
        Cell::Chosen(Some(j), restart) => *j == k && *restart,
        Cell::Chosen(None, _) => false,
        Cell::Absent => false,
        Cell::Silent => false,
        Cell::Present(_) => false,
    }
}

pub fn emitted(c: &Cell) -> bool
    ensures { result ≡ spec.emitted c.now }
{
    match c {
        Cell::Present(_) => true,
        Cell::Absent => false,
        Cell::Silent => false,
        Cell::Chosen(_, _) => false,
    }
}

/// The value of a cell, and Nil where it has none.
pub fn value_in(c: Cell) -> Value
    ensures { result ≡ spec.value_in c }
{
    match c {
        Cell::Present(w) => w,
        Cell::Absent => nil(),
        Cell::Silent => nil(),
        Cell::Chosen(_, _) => nil(),
    }
}

pub fn say_case(k: u32, c: Option<&Cell>) -> Option<bool>
    ensures { result ≡ spec.say (spec.is_case k) (option_copied c.entry) }
{
    match c {
        None => None,
        Some(c) => Some(is_case(k, c)),
    }
}

pub fn say_restarts(k: u32, c: Option<&Cell>) -> Option<bool>
    ensures { result ≡ spec.say (spec.restarts k) (option_copied c.entry) }
{
    match c {
        None => None,
        Some(c) => Some(restarts(k, c)),
    }
}

/// The cell of a name in a pattern.
pub fn part(alloc: Global, pat: &Pat, x: u32, c: &Cell) -> Result<Cell, NoMemory>
    ensures { IfOk result (λ r. r ≡ spec.part pat.now x c.now) }
{
    match c {
        Cell::Present(w) => match pick(alloc, pat, x, w)? {
            Some(found) => Ok(Cell::Present(found)),
            None => Ok(Cell::Present(nil())),
        },
        Cell::Absent => Ok(Cell::Absent),
        Cell::Silent => Ok(Cell::Silent),
        Cell::Chosen(j, restart) => Ok(Cell::Chosen(*j, *restart)),
    }
}

/// A cell on its clock: absent where the clock is off.
pub fn at(on: Option<bool>, c: Option<Cell>) -> Option<Cell>
    ensures { result ≡ spec.at on c }
{
    match on {
        Some(true) => c,
        Some(false) => Some(Cell::Absent),
        None => None,
    }
}

/// Yes where one of the two is yes, no where both are no.
pub fn either(a: Option<bool>, b: Option<bool>) -> Option<bool>
    ensures { result ≡ rows.either a b }
{
    match a {
        Some(true) => Some(true),
        Some(false) => b,
        None => match b {
            Some(true) => Some(true),
            Some(false) => None,
            None => None,
        },
    }
}

/// No where one of the two is no, yes where both are yes.
pub fn both(a: Option<bool>, b: Option<bool>) -> Option<bool>
    ensures { result ≡ rows.both a b }
{
    match a {
        Some(false) => Some(false),
        Some(true) => b,
        None => match b {
            Some(false) => Some(false),
            Some(true) => None,
            None => None,
        },
    }
}

fn gather(alloc: Global, cells: &[Option<Cell>]) -> Result<Option<List<Cell>>, NoMemory>
    ensures { IfOk result (λ r. r ≡ rows.know_all cells.now) }
{
    let mut done = List::new(alloc);
    for c in cells {
        match c {
            None => return Ok(None),
            Some(c) => done.push(copy_cell(alloc, c)?)?,
        }
    }
    Ok(Some(done))
}

fn values_of(alloc: Global, cells: &[Cell]) -> Result<List<Value>, NoMemory>
    ensures { IfOk result (λ r. r ≡ spec.values_in cells.now) }
{
    let mut done = List::new(alloc);
    for c in cells {
        done.push(value_in(copy_cell(alloc, c)?))?;
    }
    Ok(done)
}

/// The values of some cells, where all of them are known.
pub fn known_values(
    alloc: Global,
    cells: List<Option<Cell>>,
) -> Result<Option<List<Value>>, NoMemory>
    ensures { IfOk result (λ r. r ≡ rows.know (rows.know_all cells) (λ cs. Some (spec.values_in cs))) }
{
    match gather(alloc, cells.as_slice())? {
        None => Ok(None),
        Some(known) => Ok(Some(values_of(alloc, known.as_slice())?)),
    }
}
