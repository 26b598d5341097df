//! The cell of a form at an instant, by the rows of its parts.

ghost use Rattle.std.specs.Prelude.{◌≡◌, IfOk, Some};
ghost use Rattle.kahn_exprs.specs.Body as spec;
ghost use Rattle.kahn_exprs.specs.Rules as own;
ghost use Rattle.kahn_model.specs.Rows as rows;
ghost use Rattle.kahn_model.specs.Table as table;

use crate::body::{Body, cell_in};
use crate::memory::{Pace, last_bound, previous};
use kahn_cells::cells::{emitted, known_values, value_in};
use kahn_cells::search::case_value;
use kahn_cells::values::{case_of, eval, nil, tuple};
use kahn_model::{Cell, Value};
use ls_ast::{Case, Expr};
use ls_base::{List, NoMemory};
use ls_ops::Op;
use ls_places::Frame;
use ls_sig::{Binder, Note};
use ls_value::Leaf;
use std::alloc::Global;

/// A form by the rows of its parts.
#[derive(Clone, Copy)]
pub enum Rule<'a> {
    Leaf(Leaf),
    Case(Binder),
    Last(Binder),
    /// `?s`, by the row of s.
    Asked(&'a [Option<Cell>]),
    Operator(Op, &'a [List<Option<Cell>>]),
    Tuple(&'a [List<Option<Cell>>]),
    Pre(&'a [Option<Cell>]),
    Fby(&'a [Option<Cell>], &'a [Option<Cell>]),
    Init(&'a [Option<Cell>], &'a [Option<Cell>]),
    /// By the row of the condition, and one for each branch.
    Merge(&'a [Option<Cell>], &'a [(Case, Expr<Note>)], &'a [List<Option<Cell>>]),
}

/// The cells of some rows at an instant.
pub fn column(
    alloc: Global,
    all: &[List<Option<Cell>>],
    i: usize,
) -> Result<List<Option<Cell>>, NoMemory>
    ensures { IfOk result (λ r. r ≡ own.column i all.now) }
{
    let mut done = List::new(alloc);
    for cells in all {
        done.push(cell_in(alloc, cells.as_slice(), i)?)?;
    }
    Ok(done)
}

fn asked_cell(c: Option<Cell>) -> Option<Cell>
    ensures { result ≡ rows.know c (λ c. Some (spec.asked c)) }
{
    match c {
        None => None,
        Some(c) => Some(Cell::Present(Value::Leaf(Leaf::Bool(emitted(&c))))),
    }
}

fn operator_cell(alloc: Global, op: Op, cells: List<Option<Cell>>) -> Result<Option<Cell>, NoMemory>
    ensures { IfOk result (λ r. r ≡ rows.know (rows.know_all cells) (λ cs. Some (spec.operated op cs))) }
{
    match known_values(alloc, cells)? {
        None => Ok(None),
        Some(all) => Ok(Some(Cell::Present(eval(alloc, op, all.as_slice())?))),
    }
}

fn tuple_cell(alloc: Global, cells: List<Option<Cell>>) -> Result<Option<Cell>, NoMemory>
    ensures { IfOk result (λ r. r ≡ rows.know (rows.know_all cells) (λ cs. Some (spec.tupled cs))) }
{
    match known_values(alloc, cells)? {
        None => Ok(None),
        Some(all) => Ok(Some(Cell::Present(tuple(all)))),
    }
}

fn case_number(body: &Body, case: Case) -> Option<u32>
    ensures { result ≡ spec.case_number body.now case }
{
    match case {
        Case::True => Some(1),
        Case::False => Some(0),
        Case::Of(x) => body.file.case_place(x.0),
    }
}

fn is_branch(body: &Body, case: Case, k: u32) -> bool
    ensures { result ≡ spec.is_branch body.now case k }
{
    match case_number(body, case) {
        Some(j) => j == k,
        None => false,
    }
}

/// The cell of the branch that takes the case `k`.
fn branch(
    alloc: Global,
    body: &Body,
    k: u32,
    choices: &[(Case, Expr<Note>)],
    all: &[List<Option<Cell>>],
    i: usize,
) -> Result<Option<Cell>, NoMemory>
    ensures { IfOk result (λ r. r ≡ own.branch body.now k choices.now all.now i) }
{
    let mut rest = all;
    for choice in choices {
        match rest {
            [] => return Ok(Some(Cell::Absent)),
            [cells, more @ ..] => {
                if is_branch(body, choice.0, k) {
                    return cell_in(alloc, cells.as_slice(), i);
                }
                rest = more;
            }
        }
    }
    Ok(Some(Cell::Absent))
}

fn merge_cell(
    alloc: Global,
    body: &Body,
    c: Option<Cell>,
    choices: &[(Case, Expr<Note>)],
    all: &[List<Option<Cell>>],
    i: usize,
) -> Result<Option<Cell>, NoMemory>
    ensures { IfOk result (λ r. r ≡ rows.know c (own.merged body.now choices.now all.now i)) }
{
    match c {
        None => Ok(None),
        Some(c) => match case_of(&value_in(c)) {
            None => Ok(Some(Cell::Present(nil()))),
            Some(k) => branch(alloc, body, k, choices, all, i),
        },
    }
}

/// The previous instant of an expression with this note.
fn before(
    alloc: Global,
    body: &Body,
    place: &[Frame],
    note: &Note,
    i: usize,
) -> Result<Option<Option<usize>>, NoMemory>
    ensures { IfOk result (λ r. r ≡ own.before body.now place.now note.now i) }
{
    previous(
        alloc,
        body,
        Pace::Clock(&note.ck),
        place,
        note.restarts.as_slice(),
        i,
    )
}

fn pre_cell(
    alloc: Global,
    at: Option<Option<usize>>,
    cells: &[Option<Cell>],
) -> Result<Option<Cell>, NoMemory>
    ensures { IfOk result (λ r. r ≡ rows.know at (own.pre_at cells.now)) }
{
    match at {
        None => Ok(None),
        Some(None) => Ok(Some(Cell::Present(nil()))),
        Some(Some(j)) => cell_in(alloc, cells, j),
    }
}

fn fby_cell(
    alloc: Global,
    at: Option<Option<usize>>,
    x: &[Option<Cell>],
    y: &[Option<Cell>],
    i: usize,
) -> Result<Option<Cell>, NoMemory>
    ensures { IfOk result (λ r. r ≡ rows.know at (own.fby_at x.now y.now i)) }
{
    match at {
        None => Ok(None),
        Some(None) => cell_in(alloc, x, i),
        Some(Some(j)) => cell_in(alloc, y, j),
    }
}

fn init_cell(
    alloc: Global,
    at: Option<Option<usize>>,
    x: &[Option<Cell>],
    y: &[Option<Cell>],
    i: usize,
) -> Result<Option<Cell>, NoMemory>
    ensures { IfOk result (λ r. r ≡ rows.know at (own.init_at x.now y.now i)) }
{
    match at {
        None => Ok(None),
        Some(None) => cell_in(alloc, x, i),
        Some(Some(_)) => cell_in(alloc, y, i),
    }
}

/// The cell of a form at a place.
fn rule_cell(
    alloc: Global,
    body: &Body,
    place: &[Frame],
    note: &Note,
    rule: &Rule,
    i: usize,
) -> Result<Option<Cell>, NoMemory>
    ensures { IfOk result (λ r. r ≡ own.rule_cell body.now place.now note.now rule.now i) }
{
    match rule {
        Rule::Leaf(leaf) => Ok(Some(Cell::Present(Value::Leaf(*leaf)))),
        Rule::Case(bound) => Ok(Some(Cell::Present(case_value(*bound)))),
        Rule::Last(bound) => last_bound(alloc, body, *bound, i),
        Rule::Asked(cells) => Ok(asked_cell(cell_in(alloc, cells, i)?)),
        Rule::Operator(op, all) => operator_cell(alloc, *op, column(alloc, all, i)?),
        Rule::Tuple(all) => tuple_cell(alloc, column(alloc, all, i)?),
        Rule::Pre(cells) => pre_cell(alloc, before(alloc, body, place, note, i)?, cells),
        Rule::Fby(x, y) => fby_cell(alloc, before(alloc, body, place, note, i)?, x, y, i),
        Rule::Init(x, y) => init_cell(alloc, before(alloc, body, place, note, i)?, x, y, i),
        Rule::Merge(c, choices, all) => {
            merge_cell(alloc, body, cell_in(alloc, c, i)?, choices, all, i)
        }
    }
}

/// The row of a form at a place.
#[tactic(auto, using(crate::proofs::Written::one_more))]
pub fn rule_row(
    alloc: Global,
    body: &Body,
    place: &[Frame],
    note: &Note,
    rule: &Rule,
) -> Result<List<Option<Cell>>, NoMemory>
    ensures { IfOk result (λ r. r ≡ table.written_row body.now.lines 0 (own.rule_cell body.now place.now note.now rule.now)) }
{
    let mut done = List::new(alloc);
    for i in 0..body.lines {
        done.push(rule_cell(alloc, body, place, note, rule, i as usize)?)?;
    }
    Ok(done)
}
