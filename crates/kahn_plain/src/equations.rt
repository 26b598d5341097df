//! The rows of variables, initial equations and conditions of resets, anew from the table that
//! stands. The rows of right sides are taken first, and each cell from them.

ghost use Rattle.std.specs.Prelude.{◌≡◌, ◌+◌, ◌<◌, ◌^◌, IfOk, length};
ghost use Rattle.kahn_exprs.specs.Body as spec;
ghost use Rattle.kahn_model.specs.Rows.{know};
ghost use Rattle.kahn_model.specs.Table as model;
ghost use Rattle.kahn_plain.specs.Equations as own;
ghost use Rattle.kahn_plain.specs.Turns as turns;
ghost use Rattle.ls_places.specs.Search as search;

use crate::blocks::name_row;
use kahn_cells::cells::{at, copy_known, part};
use kahn_cells::search::{arms, nth};
use kahn_cells::values::nil;
use kahn_exprs::{Body, Calls, absent_row, cell_in, last, param_cell, read, row, variable_here};
use kahn_model::{Cell, Reach};
use ls_ast::Pat;
use ls_base::{List, NoMemory};
use ls_places::{Frame, Key, Right, Site, Variable};
use std::alloc::Global;

/// A row that is not known.
#[tactic(auto, using(crate::proofs::Standing::one_more))]
pub fn unknown_row(alloc: Global, lines: u32) -> Result<List<Option<Cell>>, NoMemory>
    ensures { IfOk result (λ r. r ≡ model.written_row lines 0 (λ i. None)) }
{
    let mut done = List::new(alloc);
    for _i in 0..lines {
        done.push(None)?;
    }
    Ok(done)
}

/// The row of the whole expression of this number.
pub fn whole_row<C: Calls>(
    alloc: Global,
    body: &Body,
    call: &C,
    k: u32,
) -> Result<List<Option<Cell>>, NoMemory>
    requires { C.can call.now body.now }
    ensures { IfOk result (λ r. r ≡ model.written_row body.now.lines 0 (spec.whole body.now k)) }
{
    match nth(body.def.definition().places.exprs.as_slice(), k as usize) {
        None => absent_row(alloc, body.lines),
        Some(whole) => row(alloc, body, call, whole.place.as_slice(), &whole.expr),
    }
}

/// Whether the arms between a list and an equation are active.
fn reach(body: &Body, inner: &[(u32, u32)], i: usize) -> Option<Reach>
    ensures { result ≡ spec.reach body.now inner.now i }
{
    for arm in inner {
        match read(body, Key::Name(arm.0), i) {
            None => return None,
            Some(Cell::Chosen(None, _)) => return Some(Reach::NoArm),
            Some(Cell::Chosen(Some(k), _)) => {
                if *k != arm.1 {
                    return Some(Reach::Elsewhere);
                }
            }
            Some(Cell::Absent) => return Some(Reach::Elsewhere),
            Some(Cell::Silent) => return Some(Reach::Elsewhere),
            Some(Cell::Present(_)) => return Some(Reach::Elsewhere),
        }
    }
    Some(Reach::Here)
}

/// The cell of a signal: of the variable of this number, or of the parameter of this name.
fn signal_at(
    alloc: Global,
    body: &Body,
    x: u32,
    at: Option<u32>,
    i: usize,
) -> Result<Option<Cell>, NoMemory>
    ensures { IfOk result (λ r. r ≡ own.signal_row_at body.now x at i) }
{
    match at {
        Some(k) => copy_known(alloc, read(body, Key::Var(k), i)),
        None => {
            let params = body.def.definition().params.as_slice();
            param_cell(alloc, x, params, body.context.args.as_slice(), i)
        }
    }
}

/// The cell of the signal that a test names.
pub fn signal_cell(
    alloc: Global,
    body: &Body,
    x: u32,
    place: &[Frame],
    i: usize,
) -> Result<Option<Cell>, NoMemory>
    ensures { IfOk result (λ r. r ≡ spec.signal_row body.now x place.now i) }
{
    let p = arms(alloc, place)?;
    signal_at(alloc, body, x, body.def.signal_at(x, p.as_slice()), i)
}

/// The part of a cell that a pattern gives to a name.
fn part_of(alloc: Global, p: &Pat, x: u32, c: Option<Cell>) -> Result<Option<Cell>, NoMemory>
    ensures { IfOk result (λ r. r ≡ own.part_of p.now x c) }
{
    match c {
        None => Ok(None),
        Some(c) => Ok(Some(part(alloc, p, x, &c)?)),
    }
}

/// The parts of a row that a pattern gives to a name.
#[tactic(auto, using(crate::proofs::Standing::one_more))]
fn part_row(
    alloc: Global,
    lines: u32,
    p: &Pat,
    x: u32,
    cells: &[Option<Cell>],
) -> Result<List<Option<Cell>>, NoMemory>
    ensures { IfOk result (λ r. r ≡ model.written_row lines 0 (λ i. own.part_of p.now x (model.cell_in cells.now i))) }
{
    let mut done = List::new(alloc);
    for i in 0..lines {
        let c = cell_in(alloc, cells, i as usize)?;
        done.push(part_of(alloc, p, x, c)?)?;
    }
    Ok(done)
}

/// The row of the signal that a test names.
#[tactic(auto, using(crate::proofs::Standing::one_more))]
fn signal_row(
    alloc: Global,
    body: &Body,
    x: u32,
    place: &[Frame],
) -> Result<List<Option<Cell>>, NoMemory>
    ensures { IfOk result (λ r. r ≡ model.written_row body.now.lines 0 (spec.signal_row body.now x place.now)) }
{
    let mut done = List::new(alloc);
    for i in 0..body.lines {
        done.push(signal_cell(alloc, body, x, place, i as usize)?)?;
    }
    Ok(done)
}

/// The row that an equation gives to a name.
fn right_row<C: Calls>(
    alloc: Global,
    body: &Body,
    call: &C,
    x: u32,
    place: &[Frame],
    right: &Right,
) -> Result<List<Option<Cell>>, NoMemory>
    requires { C.can call.now body.now }
    ensures { IfOk result (λ r. r ≡ model.written_row body.now.lines 0 (spec.right_cell body.now x place.now right.now)) }
{
    match right {
        Right::Part(p, k) => {
            let cells = whole_row(alloc, body, call, *k)?;
            part_row(alloc, body.lines, p, x, cells.as_slice())
        }
        Right::Whole(k) => whole_row(alloc, body, call, *k),
        Right::Pattern(y, p) => {
            let cells = signal_row(alloc, body, *y, place)?;
            part_row(alloc, body.lines, p, x, cells.as_slice())
        }
    }
}

/// The cell of a variable for which no equation is active.
fn otherwise(
    alloc: Global,
    body: &Body,
    x: u32,
    w: &Variable,
    i: usize,
) -> Result<Option<Cell>, NoMemory>
    requires { x < length body.now.def.now.places.vars }
    ensures { IfOk result (λ r. r ≡ spec.otherwise body.now x w.now i) }
{
    if w.signal {
        Ok(Some(Cell::Silent))
    } else if body.def.lacks(x) {
        last(alloc, body, x, i)
    } else {
        Ok(Some(Cell::Absent))
    }
}

#[tactic(auto, using(crate::proofs::Standing::one_more))]
fn otherwise_row(
    alloc: Global,
    body: &Body,
    x: u32,
    w: &Variable,
) -> Result<List<Option<Cell>>, NoMemory>
    requires { x < length body.now.def.now.places.vars }
    ensures { IfOk result (λ r. r ≡ model.written_row body.now.lines 0 (spec.otherwise body.now x w.now)) }
{
    let mut done = List::new(alloc);
    for i in 0..body.lines {
        done.push(otherwise(alloc, body, x, w, i as usize)?)?;
    }
    Ok(done)
}

/// The cell of a variable by an equation, where its arms are active, and else by the others.
fn site_cell(
    alloc: Global,
    body: &Body,
    signal: bool,
    inner: &[(u32, u32)],
    cells: &[Option<Cell>],
    more: &[Option<Cell>],
    i: usize,
) -> Result<Option<Cell>, NoMemory>
    ensures { IfOk result (λ r. r ≡ own.by_site body.now signal inner.now cells.now more.now i) }
{
    match reach(body, inner, i) {
        None => Ok(None),
        Some(Reach::Here) => cell_in(alloc, cells, i),
        Some(Reach::Elsewhere) => cell_in(alloc, more, i),
        Some(Reach::NoArm) => {
            if signal {
                Ok(Some(Cell::Silent))
            } else {
                Ok(Some(Cell::Present(nil())))
            }
        }
    }
}

#[tactic(auto, using(crate::proofs::Standing::one_more))]
fn site_row(
    alloc: Global,
    body: &Body,
    signal: bool,
    inner: &[(u32, u32)],
    cells: &[Option<Cell>],
    more: &[Option<Cell>],
) -> Result<List<Option<Cell>>, NoMemory>
    ensures { IfOk result (λ r. r ≡ model.written_row body.now.lines 0 (own.by_site body.now signal inner.now cells.now more.now)) }
{
    let mut done = List::new(alloc);
    for i in 0..body.lines {
        done.push(site_cell(alloc, body, signal, inner, cells, more, i as usize)?)?;
    }
    Ok(done)
}

/// The row of a variable by the equation of this number, and else by those after it, whose row is
/// given.
fn one_site<C: Calls>(
    alloc: Global,
    body: &Body,
    call: &C,
    w: &Variable,
    k: u32,
    more: List<Option<Cell>>,
) -> Result<List<Option<Cell>>, NoMemory>
    requires { C.can call.now body.now }
    ensures { IfOk result (λ r. own.AddsSite body.now w.now k more r) }
{
    match nth(body.def.definition().places.sites.as_slice(), k as usize) {
        None => Ok(more),
        Some(s) => {
            let cells = right_row(alloc, body, call, w.name, s.place.as_slice(), &s.right)?;
            site_row(
                alloc,
                body,
                w.signal,
                s.inner.as_slice(),
                cells.as_slice(),
                more.as_slice(),
            )
        }
    }
}

/// The row of a variable by its equations, apart from its clock: the last one first.
fn by_sites<C: Calls>(
    alloc: Global,
    body: &Body,
    call: &C,
    x: u32,
    w: &Variable,
) -> Result<List<Option<Cell>>, NoMemory>
    requires can { C.can call.now body.now }
    requires range { x < length body.now.def.now.places.vars }
    ensures { IfOk result (λ r. r ≡ model.written_row body.now.lines 0 (own.unclocked body.now x w.now)) }
{
    let numbers = body.def.sites_of(x);
    let mut done = otherwise_row(alloc, body, x, w)?;
    for back in 0..numbers.len() {
        let k = numbers[numbers.len() - 1 - back];
        done = one_site(alloc, body, call, w, k, done)?;
    }
    Ok(done)
}

/// A row on the clock of a variable.
#[tactic(auto, using(crate::proofs::Standing::one_more))]
fn on_variable(
    alloc: Global,
    body: &Body,
    x: u32,
    cells: &[Option<Cell>],
) -> Result<List<Option<Cell>>, NoMemory>
    ensures { IfOk result (λ r. r ≡ model.written_row body.now.lines 0 (own.on_variable body.now x cells.now)) }
{
    let mut done = List::new(alloc);
    for i in 0..body.lines {
        let c = cell_in(alloc, cells, i as usize)?;
        done.push(at(variable_here(body, x, i as usize), c))?;
    }
    Ok(done)
}

fn variable_row<C: Calls>(
    alloc: Global,
    body: &Body,
    call: &C,
    x: u32,
) -> Result<List<Option<Cell>>, NoMemory>
    requires { C.can call.now body.now }
    ensures { IfOk result (λ r. r ≡ model.written_row body.now.lines 0 (own.variable_cell body.now x)) }
{
    match nth(body.def.definition().places.vars.as_slice(), x as usize) {
        None => absent_row(alloc, body.lines),
        Some(w) => {
            let cells = by_sites(alloc, body, call, x, w)?;
            on_variable(alloc, body, x, cells.as_slice())
        }
    }
}

fn start_row<C: Calls>(
    alloc: Global,
    body: &Body,
    call: &C,
    x: u32,
) -> Result<List<Option<Cell>>, NoMemory>
    requires { C.can call.now body.now }
    ensures { IfOk result (λ r. r ≡ model.written_row body.now.lines 0 (own.start_cell body.now x)) }
{
    match nth(body.def.definition().places.vars.as_slice(), x as usize) {
        None => absent_row(alloc, body.lines),
        Some(w) => match body.def.start_of(w) {
            None => absent_row(alloc, body.lines),
            Some(s) => whole_row(alloc, body, call, s.right),
        },
    }
}

fn reset_row<C: Calls>(
    alloc: Global,
    body: &Body,
    call: &C,
    r: u32,
) -> Result<List<Option<Cell>>, NoMemory>
    requires { C.can call.now body.now }
    ensures { IfOk result (λ c. c ≡ model.written_row body.now.lines 0 (own.reset_cell body.now r)) }
{
    match nth(body.def.definition().places.resets.as_slice(), r as usize) {
        None => absent_row(alloc, body.lines),
        Some(k) => whole_row(alloc, body, call, *k),
    }
}

/// A row of a table, anew from the table before it, with a cell for each line.
pub fn turn_row<C: Calls>(
    alloc: Global,
    body: &Body,
    call: &C,
    key: Key,
) -> Result<List<Option<Cell>>, NoMemory>
    requires can { C.can call.now body.now }
    requires number { turns.IsNumbered key }
    ensures { IfOk result (λ r. r ≡ model.written_row body.now.lines 0 (spec.turn body.now key)) }
{
    match key {
        Key::Var(x) => variable_row(alloc, body, call, x),
        Key::Start(x) => start_row(alloc, body, call, x),
        Key::Name(m) => name_row(alloc, body, call, m),
        Key::Reset(r) => reset_row(alloc, body, call, r),
    }
}
