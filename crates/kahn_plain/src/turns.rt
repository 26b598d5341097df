//! The table of a body, row by row.

ghost use Rattle.std.specs.Prelude.{◌≡◌, ◌+◌, ◌<◌, ◌^◌, ◌↔◌, ◌||◌, ℕ, length, false, true, Some, IfOk, IsTrue};
ghost use Rattle.kahn_exprs.specs.Standing as standing;
ghost use Rattle.kahn_model.specs.Rows.{IsKnown};
ghost use Rattle.kahn_model.specs.Table as model;
ghost use Rattle.kahn_plain.specs.Calls.{Serves};
ghost use Rattle.kahn_plain.specs.Turns as own;

use crate::equations::turn_row;
use kahn_exprs::{Body, Calls, Rows, cell_in};
use kahn_model::{Cell, laws};
use ls_base::{List, NoMemory};
use ls_places::{Definition, Key};
use std::alloc::Global;

/// The kinds of rows of a table.
#[derive(Clone, Copy, Debug, PartialEq, Eq)]
pub enum Kind {
    Var,
    Start,
    Name,
    Reset,
}

fn key_of(kind: Kind, k: u32) -> Key
    ensures { result ≡ own.key_of kind k }
{
    match kind {
        Kind::Var => Key::Var(k),
        Kind::Start => Key::Start(k),
        Kind::Name => Key::Name(k),
        Kind::Reset => Key::Reset(k),
    }
}

fn or(a: bool, b: bool) -> bool
    ensures { result ≡ a || b }
{
    a || b
}

/// Whether all cells of a row are known.
fn is_full(rows: &Rows, key: Key, lines: u32) -> bool
    ensures { IsTrue result → (i : ℕ) → i < lines → IsKnown (standing.table rows.now key i) }
{
    for i in 0..lines {
        match rows.read(key, i as usize) {
            None => return false,
            Some(_) => {}
        }
    }
    true
}

/// Puts a cell of a row where none is known; tells whether there is one.
fn merge_cell(
    alloc: Global,
    key: Key,
    i: usize,
    cells: &[Option<Cell>],
    rows: &mut Rows,
) -> Result<bool, NoMemory>
    ensures { IfOk result (λ more. own.MergedAt key i cells.now rows.old more rows.new) }
{
    match rows.read(key, i) {
        Some(_) => Ok(false),
        None => match cell_in(alloc, cells, i)? {
            None => Ok(false),
            Some(c) => Ok(rows.put(key, i, c)),
        },
    }
}

/// Puts the cells of a row where none are known; tells whether there are any.
fn merge(
    alloc: Global,
    key: Key,
    lines: u32,
    cells: &[Option<Cell>],
    rows: &mut Rows,
) -> Result<bool, NoMemory>
    ensures { IfOk result (λ more. own.Merged key lines cells.now rows.old more rows.new) }
{
    let mut more = false;
    for i in 0..lines {
        let put = merge_cell(alloc, key, i as usize, cells, rows)?;
        more = or(more, put);
    }
    Ok(more)
}

/// A row anew, from the rows that stand.
fn new_row<C: Calls>(
    alloc: Global,
    body: &Body,
    call: &C,
    key: Key,
    rows: &Rows,
) -> Result<List<Option<Cell>>, NoMemory>
    requires can { Serves (C.can call.now) body.now }
    requires number { own.IsNumbered key }
    ensures { IfOk result (λ r. r ≡ model.written_row body.now.lines 0 (own.turn_of body.now (standing.table rows.now) key)) }
{
    let then = Body { rows, ..*body };
    turn_row(alloc, &then, call, key)
}

/// Makes a row anew, if it is not full; tells whether a cell is known that was not.
fn renew<C: Calls>(
    alloc: Global,
    body: &Body,
    call: &C,
    key: Key,
    rows: &mut Rows,
) -> Result<bool, NoMemory>
    requires can { Serves (C.can call.now) body.now }
    requires number { own.IsNumbered key }
    requires range { standing.InRange body.now.def.now key }
    requires low { own.Low body.now rows.old }
    ensures { IfOk result (λ more. own.Renewed body.now (own.Only key) rows.old more rows.new) }
{
    laws::turns_are_monotone();
    laws::rows_may_be_made_one_by_one();
    if is_full(rows, key, body.lines) {
        return Ok(false);
    }
    let cells = new_row(alloc, body, call, key, rows)?;
    merge(alloc, key, body.lines, cells.as_slice(), rows)
}

/// Makes the rows of a kind anew, `count` of them from the number `from` on.
fn renew_kind<C: Calls>(
    alloc: Global,
    body: &Body,
    call: &C,
    kind: Kind,
    from: u32,
    count: usize,
    rows: &mut Rows,
) -> Result<bool, NoMemory>
    requires can { Serves (C.can call.now) body.now }
    requires numbers { from + count < 2 ^ 32 }
    requires range { (k : ℕ) → k < count → standing.InRange body.now.def.now (own.key_of kind (from + k)) }
    requires low { own.Low body.now rows.old }
    ensures { IfOk result (λ more. own.Renewed body.now (own.OfKind kind from count) rows.old more rows.new) }
{
    laws::turns_are_monotone();
    let mut more = false;
    for k in 0..count {
        let put = renew(alloc, body, call, key_of(kind, from + k as u32), rows)?;
        more = or(more, put);
    }
    Ok(more)
}

/// Makes all rows anew that are not full, each from what stands when its turn comes.
fn sweep<C: Calls>(alloc: Global, body: &Body, call: &C, rows: &mut Rows) -> Result<bool, NoMemory>
    requires can { Serves (C.can call.now) body.now }
    requires numbers { own.AreNumbered body.now.def.now }
    requires low { own.Low body.now rows.old }
    ensures { IfOk result (λ more. own.Renewed body.now (standing.InRange body.now.def.now) rows.old more rows.new) }
{
    laws::turns_are_monotone();
    let def = body.def.definition();
    let places = &def.places;
    let first = def.params.len() as u32;
    let a = renew_kind(alloc, body, call, Kind::Var, 0, places.vars.len(), rows)?;
    let b = renew_kind(alloc, body, call, Kind::Start, 0, places.vars.len(), rows)?;
    let c = renew_kind(
        alloc,
        body,
        call,
        Kind::Name,
        first,
        places.names.len(),
        rows,
    )?;
    let d = renew_kind(alloc, body, call, Kind::Reset, 0, places.resets.len(), rows)?;
    Ok(or(or(a, b), or(c, d)))
}

/// Makes all rows anew so many times, or until none has a further cell; tells whether this came.
fn sweeps<C: Calls>(
    alloc: Global,
    body: &Body,
    call: &C,
    times: usize,
    rows: &mut Rows,
) -> Result<bool, NoMemory>
    requires can { Serves (C.can call.now) body.now }
    requires numbers { own.AreNumbered body.now.def.now }
    requires low { own.Low body.now rows.old }
    ensures { IfOk result (λ done. own.Swept body.now times rows.old done rows.new) }
{
    laws::turns_are_monotone();
    laws::rows_may_be_made_one_by_one();
    for _t in 0..times {
        if !sweep(alloc, body, call, rows)? {
            return Ok(true);
        }
    }
    Ok(false)
}

/// The table of a body: its rows are made anew one after the other, until none of them has a
/// further cell. The table that stands in `body` is not asked.
pub fn table<C: Calls>(alloc: Global, body: &Body, call: &C) -> Result<Rows, NoMemory>
    requires can { Serves (C.can call.now) body.now }
    requires numbers { own.AreNumbered body.now.def.now }
    ensures table { IfOk result (λ r. standing.table r ≡ own.least body.now) }
{
    laws::turns_are_monotone();
    let def = body.def.definition();
    let lines = body.lines as usize;
    let (vars, names) = (def.places.vars.len(), def.places.names.len());
    let resets = def.places.resets.len();
    let mut rows = Rows::unknown(alloc, def, body.lines)?;
    if sweeps(alloc, body, call, vars * lines, &mut rows)? {
        return Ok(rows);
    }
    if sweeps(alloc, body, call, vars * lines, &mut rows)? {
        return Ok(rows);
    }
    if sweeps(alloc, body, call, names * lines, &mut rows)? {
        return Ok(rows);
    }
    sweeps(alloc, body, call, resets * lines, &mut rows)?;
    Ok(rows)
}

/// Whether the clock names of a definition can all be numbered.
pub fn is_numbered(def: &Definition) -> bool
    ensures { IsTrue result ↔ own.AreNumbered def.now }
{
    def.params.len() + def.places.names.len() < 4_294_967_296
}
