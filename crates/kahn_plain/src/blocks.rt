//! The rows of blocks and automata, anew from the table that stands. The rows of scrutinees and
//! guards are taken first, and each cell from them.

ghost use Rattle.std.specs.Prelude.{◌≡◌, ◌+◌, ◌-◌, ◌<◌, ◌^◌, IfOk, Some, length};
ghost use Rattle.std.specs.Option.{option_copied};
ghost use Rattle.kahn_exprs.specs.Body as spec;
ghost use Rattle.kahn_model.specs.Table as model;
ghost use Rattle.kahn_plain.specs.Equations as own;
ghost use Rattle.ls_places.specs.Search as search;

use crate::equations::{signal_cell, whole_row};
use kahn_cells::cells::{at, copy_cell, emitted, is_case, value_in};
use kahn_cells::search::{chosen_arm, guards_of, nth, state_of};
use kahn_exprs::{
    Body, Calls, Pace, absent_row, active, cell_in, known, mode_here, on, previous, read, row,
    signal_here,
};
use kahn_model::Cell;
use ls_base::{List, NoMemory};
use ls_places::{Definition, Frame, Key, Named, Transition, Whole};
use ls_sig::Note;
use ls_terms::ClockTerm;
use std::alloc::Global;

// ---- guards

/// The rows of the conditions of some guards.
fn conditions<C: Calls>(
    alloc: Global,
    body: &Body,
    call: &C,
    all: &[Transition],
) -> Result<List<List<Option<Cell>>>, NoMemory>
    requires { C.can call.now body.now }
    ensures { IfOk result (λ r. r ≡ own.conditions body.now all.now) }
{
    let mut done = List::new(alloc);
    for g in all {
        done.push(whole_row(alloc, body, call, g.cond)?)?;
    }
    Ok(done)
}

/// The rows of the conditions of the guards of each state.
fn guards<C: Calls>(
    alloc: Global,
    body: &Body,
    call: &C,
    states: &[(u32, List<Transition>)],
) -> Result<List<List<List<Option<Cell>>>>, NoMemory>
    requires { C.can call.now body.now }
    ensures { IfOk result (λ r. r ≡ own.guards body.now states.now) }
{
    let mut done = List::new(alloc);
    for s in states {
        done.push(conditions(alloc, body, call, s.1.as_slice())?)?;
    }
    Ok(done)
}

/// The target of the first true guard, from the rows of their conditions, and else the state
/// itself.
fn by_guards(
    states: &[(u32, List<Transition>)],
    none: (u32, bool),
    all: &[Transition],
    conditions: &[List<Option<Cell>>],
    i: usize,
) -> Option<Cell>
    requires { length states.now < 2 ^ 32 }
    ensures { result ≡ own.by_guards states.now (own.in_state none.0 none.1) all.now conditions.now i }
{
    let mut rest = conditions;
    for g in all {
        match rest {
            [] => return None,
            [cells, more @ ..] => {
                match known(cells.as_slice(), i) {
                    None => return None,
                    Some(c) => {
                        if is_case(1, c) {
                            return Some(Cell::Chosen(Some(state_of(g.target, states)), g.restart));
                        }
                    }
                }
                rest = more;
            }
        }
    }
    Some(Cell::Chosen(Some(none.0), none.1))
}

/// The rows of the guards of a state.
fn rows_at(all: &[List<List<Option<Cell>>>], k: u32) -> &[List<Option<Cell>>]
    ensures { result.now ≡ own.rows_at all.now k }
{
    match nth(all, k as usize) {
        None => &[],
        Some(rows) => rows.as_slice(),
    }
}

/// Whether a state that is kept restarts.
fn kept(keep: bool, restart: bool) -> bool
    ensures { result ≡ search.and keep restart }
{
    keep && restart
}

/// What the guards of the state that a cell names choose.
fn choice(
    alloc: Global,
    keep: bool,
    states: &[(u32, List<Transition>)],
    guard_rows: &[List<List<Option<Cell>>>],
    i: usize,
    c: &Cell,
) -> Result<Option<Cell>, NoMemory>
    requires { length states.now < 2 ^ 32 }
    ensures { IfOk result (λ r. r ≡ own.choice keep states.now guard_rows.now i c.now) }
{
    match c {
        Cell::Chosen(Some(s), restart) => {
            let none = (*s, kept(keep, *restart));
            let all = guards_of(states, *s);
            Ok(by_guards(states, none, all, rows_at(guard_rows, *s), i))
        }
        Cell::Chosen(None, restart) => Ok(Some(Cell::Chosen(None, *restart))),
        Cell::Absent => Ok(Some(Cell::Absent)),
        Cell::Silent => Ok(Some(Cell::Silent)),
        Cell::Present(_) => Ok(Some(copy_cell(alloc, c)?)),
    }
}

// ---- `present`

/// The first test whose signal is emitted, and else the last arm.
fn first_emitted(
    alloc: Global,
    body: &Body,
    all: &[u32],
    place: &[Frame],
    i: usize,
) -> Result<Option<Cell>, NoMemory>
    requires { length all.now < 2 ^ 32 }
    ensures { IfOk result (λ r. r ≡ spec.first_emitted body.now all.now place.now 0 i) }
{
    let mut j = 0;
    for x in all {
        match signal_cell(alloc, body, *x, place, i)? {
            None => return Ok(None),
            Some(c) => {
                if emitted(&c) {
                    return Ok(Some(Cell::Chosen(Some(j), false)));
                }
            }
        }
        j += 1;
    }
    Ok(Some(Cell::Chosen(Some(j), false)))
}

/// Whether a `present` is on: with the first signal that it tests.
fn present_here(
    alloc: Global,
    body: &Body,
    all: &[u32],
    place: &[Frame],
    i: usize,
) -> Result<Option<bool>, NoMemory>
    ensures { IfOk result (λ r. r ≡ spec.present_here body.now all.now place.now i) }
{
    match all {
        [] => Ok(active(body, place, i)),
        [x, ..] => signal_here(alloc, body, *x, place, i),
    }
}

fn present_cell(
    alloc: Global,
    body: &Body,
    all: &[u32],
    place: &[Frame],
    i: usize,
) -> Result<Option<Cell>, NoMemory>
    requires { length all.now < 2 ^ 32 }
    ensures { IfOk result (λ r. r ≡ own.present_cell body.now all.now place.now i) }
{
    let c = first_emitted(alloc, body, all, place, i)?;
    Ok(at(present_here(alloc, body, all, place, i)?, c))
}

/// The selector of a `present`.
#[tactic(auto, using(crate::proofs::Standing::one_more))]
fn present_row(
    alloc: Global,
    body: &Body,
    all: &[u32],
    place: &[Frame],
) -> Result<List<Option<Cell>>, NoMemory>
    requires { length all.now < 2 ^ 32 }
    ensures { IfOk result (λ r. r ≡ model.written_row body.now.lines 0 (own.present_cell body.now all.now place.now)) }
{
    let mut done = List::new(alloc);
    for i in 0..body.lines {
        done.push(present_cell(alloc, body, all, place, i as usize)?)?;
    }
    Ok(done)
}

// ---- `match`

fn match_cell(
    alloc: Global,
    body: &Body,
    ck: &ClockTerm,
    all: &[Option<u32>],
    cells: &[Option<Cell>],
    i: usize,
) -> Result<Option<Cell>, NoMemory>
    requires { length all.now < 2 ^ 32 }
    ensures { IfOk result (λ r. r ≡ own.match_from body.now ck.now all.now cells.now i) }
{
    let c = match cell_in(alloc, cells, i)? {
        None => None,
        Some(c) => Some(Cell::Chosen(chosen_arm(all, &value_in(c)), false)),
    };
    Ok(at(on(body, ck, i), c))
}

#[tactic(auto, using(crate::proofs::Standing::one_more))]
fn match_cells(
    alloc: Global,
    body: &Body,
    ck: &ClockTerm,
    all: &[Option<u32>],
    cells: &[Option<Cell>],
) -> Result<List<Option<Cell>>, NoMemory>
    requires { length all.now < 2 ^ 32 }
    ensures { IfOk result (λ r. r ≡ model.written_row body.now.lines 0 (own.match_from body.now ck.now all.now cells.now)) }
{
    let mut done = List::new(alloc);
    for i in 0..body.lines {
        done.push(match_cell(alloc, body, ck, all, cells, i as usize)?)?;
    }
    Ok(done)
}

/// The selector of a `match` on a whole expression.
fn match_on<C: Calls>(
    alloc: Global,
    body: &Body,
    call: &C,
    whole: &Whole<Note>,
    all: &[Option<u32>],
) -> Result<List<Option<Cell>>, NoMemory>
    requires can { C.can call.now body.now }
    requires few { length all.now < 2 ^ 32 }
    ensures { IfOk result (λ r. r ≡ model.written_row body.now.lines 0 (own.match_on body.now whole.now all.now)) }
{
    let cells = row(alloc, body, call, whole.place.as_slice(), &whole.expr)?;
    match_cells(alloc, body, &whole.expr.note.ck, all, cells.as_slice())
}

/// The selector of a `match`, by the number of its scrutinee.
fn match_row<C: Calls>(
    alloc: Global,
    body: &Body,
    call: &C,
    k: u32,
    all: &[Option<u32>],
) -> Result<List<Option<Cell>>, NoMemory>
    requires can { C.can call.now body.now }
    requires few { length all.now < 2 ^ 32 }
    ensures { IfOk result (λ r. r ≡ model.written_row body.now.lines 0 (own.match_cell body.now k all.now)) }
{
    match nth(body.def.definition().places.exprs.as_slice(), k as usize) {
        None => absent_row(alloc, body.lines),
        Some(whole) => match_on(alloc, body, call, whole, all),
    }
}

// ---- automata

fn active_cell(
    alloc: Global,
    body: &Body,
    m: u32,
    states: &[(u32, List<Transition>)],
    place: &[Frame],
    guard_rows: &[List<List<Option<Cell>>>],
    i: usize,
) -> Result<Option<Cell>, NoMemory>
    requires number { m + 1 < 2 ^ 32 }
    requires few { length states.now < 2 ^ 32 }
    ensures { IfOk result (λ r. r ≡ own.active_from body.now m states.now place.now guard_rows.now i) }
{
    let c = match read(body, Key::Name(m + 1), i) {
        None => None,
        Some(c) => choice(alloc, true, states, guard_rows, i, c)?,
    };
    Ok(at(mode_here(alloc, body, m, place, i)?, c))
}

#[tactic(auto, using(crate::proofs::Standing::one_more))]
fn active_cells(
    alloc: Global,
    body: &Body,
    m: u32,
    states: &[(u32, List<Transition>)],
    place: &[Frame],
    guard_rows: &[List<List<Option<Cell>>>],
) -> Result<List<Option<Cell>>, NoMemory>
    requires number { m + 1 < 2 ^ 32 }
    requires few { length states.now < 2 ^ 32 }
    ensures { IfOk result (λ r. r ≡ model.written_row body.now.lines 0 (own.active_from body.now m states.now place.now guard_rows.now)) }
{
    let mut done = List::new(alloc);
    for i in 0..body.lines {
        done.push(active_cell(alloc, body, m, states, place, guard_rows, i as usize)?)?;
    }
    Ok(done)
}

/// The active row of an automaton with this first clock name.
fn active_row<C: Calls>(
    alloc: Global,
    body: &Body,
    call: &C,
    m: u32,
    states: &[(u32, List<Transition>)],
    place: &[Frame],
) -> Result<List<Option<Cell>>, NoMemory>
    requires can { C.can call.now body.now }
    requires number { m + 1 < 2 ^ 32 }
    requires few { length states.now < 2 ^ 32 }
    ensures { IfOk result (λ r. r ≡ model.written_row body.now.lines 0 (own.active_cell body.now m states.now place.now)) }
{
    let guard_rows = guards(alloc, body, call, states)?;
    active_cells(alloc, body, m, states, place, guard_rows.as_slice())
}

/// The state that the weak guards chose at the previous instant, and the initial one at a first.
fn after_state(
    alloc: Global,
    body: &Body,
    m: u32,
    states: &[(u32, List<Transition>)],
    guard_rows: &[List<List<Option<Cell>>>],
    before: Option<usize>,
) -> Result<Option<Cell>, NoMemory>
    requires { length states.now < 2 ^ 32 }
    ensures { IfOk result (λ r. r ≡ own.after_from body.now m states.now guard_rows.now before) }
{
    match before {
        None => Ok(Some(Cell::Chosen(Some(0), false))),
        Some(j) => match read(body, Key::Name(m), j) {
            None => Ok(None),
            Some(c) => choice(alloc, false, states, guard_rows, j, c),
        },
    }
}

fn tested_cell(
    alloc: Global,
    body: &Body,
    m: u32,
    states: &[(u32, List<Transition>)],
    place: &[Frame],
    guard_rows: &[List<List<Option<Cell>>>],
    i: usize,
) -> Result<Option<Cell>, NoMemory>
    requires number { m + 1 < 2 ^ 32 }
    requires few { length states.now < 2 ^ 32 }
    ensures { IfOk result (λ r. r ≡ own.tested_from body.now m states.now place.now guard_rows.now i) }
{
    let c = match previous(alloc, body, Pace::Mode(m, place), place, &[], i)? {
        None => None,
        Some(before) => after_state(alloc, body, m, states, guard_rows, before)?,
    };
    Ok(at(mode_here(alloc, body, m, place, i)?, c))
}

#[tactic(auto, using(crate::proofs::Standing::one_more))]
fn tested_cells(
    alloc: Global,
    body: &Body,
    m: u32,
    states: &[(u32, List<Transition>)],
    place: &[Frame],
    guard_rows: &[List<List<Option<Cell>>>],
) -> Result<List<Option<Cell>>, NoMemory>
    requires number { m + 1 < 2 ^ 32 }
    requires few { length states.now < 2 ^ 32 }
    ensures { IfOk result (λ r. r ≡ model.written_row body.now.lines 0 (own.tested_from body.now m states.now place.now guard_rows.now)) }
{
    let mut done = List::new(alloc);
    for i in 0..body.lines {
        done.push(tested_cell(alloc, body, m, states, place, guard_rows, i as usize)?)?;
    }
    Ok(done)
}

/// The tested row of an automaton with this first clock name.
fn tested_row<C: Calls>(
    alloc: Global,
    body: &Body,
    call: &C,
    m: u32,
    states: &[(u32, List<Transition>)],
    place: &[Frame],
) -> Result<List<Option<Cell>>, NoMemory>
    requires can { C.can call.now body.now }
    requires number { m + 1 < 2 ^ 32 }
    requires few { length states.now < 2 ^ 32 }
    ensures { IfOk result (λ r. r ≡ model.written_row body.now.lines 0 (own.tested_cell body.now m states.now place.now)) }
{
    let guard_rows = guards(alloc, body, call, states)?;
    tested_cells(alloc, body, m, states, place, guard_rows.as_slice())
}

// ---- clock names

/// What a clock name stands for.
fn named(d: &Definition, m: u32) -> Option<&Named>
    ensures { option_copied result ≡ search.nth d.now.places.names (m - length d.now.params) }
{
    let place = (m as usize).saturating_sub(d.params.len());
    nth(d.places.names.as_slice(), place)
}

/// The row of a clock name that stands for a block.
fn named_row<C: Calls>(
    alloc: Global,
    body: &Body,
    call: &C,
    m: u32,
    name: &Named,
) -> Result<List<Option<Cell>>, NoMemory>
    requires can { C.can call.now body.now }
    requires number { m + 1 < 2 ^ 32 }
    ensures { IfOk result (λ r. r ≡ model.written_row body.now.lines 0 (spec.name_cell body.now m (Some name.now))) }
{
    match name {
        Named::Clock(_) => absent_row(alloc, body.lines),
        Named::Match(k, all, _) => match_row(alloc, body, call, *k, all.as_slice()),
        Named::Present(all, p) => present_row(alloc, body, all.as_slice(), p.as_slice()),
        Named::Active(states, p) => {
            active_row(alloc, body, call, m, states.as_slice(), p.as_slice())
        }
        Named::Tested(states, p) => {
            let first = m.saturating_sub(1);
            tested_row(alloc, body, call, first, states.as_slice(), p.as_slice())
        }
    }
}

/// The row of a clock name.
pub fn name_row<C: Calls>(
    alloc: Global,
    body: &Body,
    call: &C,
    m: u32,
) -> Result<List<Option<Cell>>, NoMemory>
    requires can { C.can call.now body.now }
    requires number { m + 1 < 2 ^ 32 }
    ensures { IfOk result (λ r. r ≡ model.written_row body.now.lines 0 (own.name_cell body.now m)) }
{
    match named(body.def.definition(), m) {
        None => absent_row(alloc, body.lines),
        Some(name) => named_row(alloc, body, call, m, name),
    }
}
