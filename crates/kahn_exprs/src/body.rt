//! A body with what is around it and a table, and what is around a place in it.

ghost use Rattle.std.specs.Prelude.{◌≡◌, IfOk, Some};
ghost use Rattle.std.specs.Option.{option_copied};
ghost use Rattle.kahn_exprs.specs.Body as spec;
ghost use Rattle.kahn_exprs.specs.Context as around;
ghost use Rattle.kahn_model.specs.Cells as cells_of;
ghost use Rattle.kahn_model.specs.Functions.{param_in, part_arg, row_of};
ghost use Rattle.kahn_model.specs.Table as rows;

use crate::context::{Argument, Clocks, Context};
use crate::table::{Rows, known};
use kahn_cells::cells::{both, copy_known, either, part, say_case, say_restarts};
use kahn_cells::search::{binds, nth};
use kahn_cells::{Constructors, Prepared};
use kahn_model::Cell;
use ls_ast::Pat;
use ls_base::{List, NoMemory};
use ls_places::{Frame, Key, Named};
use ls_terms::ClockTerm;
use std::alloc::Global;

/// A body on some lines, in a context, with a table that stands. Calls in it nest at most `depth`
/// deep.
#[derive(Clone, Copy)]
pub struct Body<'a> {
    /// The file that it stands in.
    pub file: &'a Constructors<'a>,
    /// The definitions of the file.
    pub defs: &'a [Prepared],
    pub lines: u32,
    pub depth: u32,
    /// Its own definition.
    pub def: &'a Prepared,
    pub context: &'a Context,
    pub rows: &'a Rows,
}

/// A copy of the cell of a row at an instant.
pub fn cell_in(alloc: Global, cells: &[Option<Cell>], i: usize) -> Result<Option<Cell>, NoMemory>
    ensures { IfOk result (λ r. r ≡ rows.cell_in cells.now i) }
{
    copy_known(alloc, known(cells, i))
}

/// The truth of a row at an instant.
pub fn truth_in(cells: &[Option<bool>], i: usize) -> Option<bool>
    ensures { result ≡ rows.cell_in cells.now i }
{
    match cells.get(i) {
        None => None,
        Some(c) => *c,
    }
}

/// The cell of the table at an instant, None where it is not known.
pub fn read<'a>(body: &Body<'a>, key: Key, i: usize) -> Option<&'a Cell>
    ensures { option_copied result ≡ spec.table body.now key i }
{
    body.rows.read(key, i)
}

/// Where the innermost of some arms is active, or else as said of what is around them.
fn active_in(body: &Body, now: Option<bool>, all: &[(u32, u32)], i: usize) -> Option<bool>
    ensures { result ≡ spec.active_now body.now now all.now i }
{
    let mut here = now;
    for (m, j) in all {
        here = say_case(*j, read(body, Key::Name(*m), i));
    }
    here
}

/// Whether a place is active.
#[tactic(auto, using(crate::proofs::Around::active_is))]
pub fn active(body: &Body, place: &[Frame], i: usize) -> Option<bool>
    ensures { result ≡ spec.active body.now place.now i }
{
    let mut here = truth_in(body.context.active.as_slice(), i);
    for frame in place {
        match frame {
            Frame::Reset(_) => {}
            Frame::Arm(m, j) => {
                here = say_case(*j, read(body, Key::Name(*m), i));
            }
        }
    }
    here
}

/// Whether a place restarts.
#[tactic(auto, using(crate::proofs::Around::again_is))]
pub fn again(body: &Body, place: &[Frame], i: usize) -> Option<bool>
    ensures { result ≡ spec.again body.now place.now i }
{
    let mut now = truth_in(body.context.again.as_slice(), i);
    for frame in place {
        match frame {
            Frame::Reset(r) => {
                now = either(now, say_case(1, read(body, Key::Reset(*r), i)));
            }
            Frame::Arm(m, j) => {
                now = either(now, say_restarts(*j, read(body, Key::Name(*m), i)));
            }
        }
    }
    now
}

/// Whether something restarts with its place, as said, or where a variable of these numbers is
/// present and true.
pub fn again_too(body: &Body, now: Option<bool>, all: &[u32], i: usize) -> Option<bool>
    ensures { result ≡ spec.too_now body.now now all.now i }
{
    let mut so_far = now;
    for x in all {
        so_far = either(so_far, say_case(1, read(body, Key::Var(*x), i)));
    }
    so_far
}

/// Whether what is on as said is on in these arms, too.
pub fn in_arms(body: &Body, now: Option<bool>, all: &[(u32, u32)], i: usize) -> Option<bool>
    ensures { result ≡ spec.in_arms_now body.now now all.now i }
{
    let mut here = now;
    for (m, j) in all {
        here = both(here, say_case(*j, read(body, Key::Name(*m), i)));
    }
    here
}

/// The cell of what stands for a parameter: a function is absent.
pub fn stream_cell(alloc: Global, arg: &Argument, i: usize) -> Result<Option<Cell>, NoMemory>
    ensures { IfOk result (λ r. r ≡ row_of (around.arg_of arg.now) i) }
{
    match arg {
        Argument::Stream(cells) => cell_in(alloc, cells.as_slice(), i),
        Argument::Function(_, _) => Ok(Some(Cell::Absent)),
        Argument::Pointwise(_) => Ok(Some(Cell::Absent)),
        Argument::Given(_, _) => Ok(Some(Cell::Absent)),
    }
}

/// Whether what stands for a parameter says the case `k`.
fn stream_says(arg: &Argument, k: u32, i: usize) -> Option<bool>
    ensures { result ≡ cells_of.say (cells_of.is_case k) (row_of (around.arg_of arg.now) i) }
{
    match arg {
        Argument::Stream(cells) => say_case(k, known(cells.as_slice(), i)),
        Argument::Function(_, _) => Some(false),
        Argument::Pointwise(_) => Some(false),
        Argument::Given(_, _) => Some(false),
    }
}

/// Whether the parameter of this number says the case `k`.
#[tactic(auto, using(crate::proofs::Found::arg_found))]
fn parameter_says(args: &[Argument], m: usize, k: u32, i: usize) -> Option<bool>
    ensures { result ≡ cells_of.say (cells_of.is_case k) (around.arg_row m args.now i) }
{
    match nth(args, m) {
        None => Some(false),
        Some(arg) => stream_says(arg, k, i),
    }
}

/// The cell of the part of an argument that a pattern gives to a name.
fn part_cell(
    alloc: Global,
    p: &Pat,
    x: u32,
    arg: &Argument,
    i: usize,
) -> Result<Option<Cell>, NoMemory>
    ensures { IfOk result (λ r. r ≡ row_of (part_arg p.now x (around.arg_of arg.now)) i) }
{
    match arg {
        Argument::Stream(cells) => match known(cells.as_slice(), i) {
            None => Ok(None),
            Some(c) => Ok(Some(part(alloc, p, x, c)?)),
        },
        Argument::Function(_, _) => Ok(Some(Cell::Absent)),
        Argument::Pointwise(_) => Ok(Some(Cell::Absent)),
        Argument::Given(_, _) => Ok(Some(Cell::Absent)),
    }
}

/// The cell of a name of a parameter.
pub fn param_cell(
    alloc: Global,
    x: u32,
    params: &[Pat],
    args: &[Argument],
    i: usize,
) -> Result<Option<Cell>, NoMemory>
    ensures { IfOk result (λ r. r ≡ row_of (param_in x params.now (around.args_of args.now)) i) }
{
    let mut rest = args;
    for p in params {
        match rest {
            [] => return Ok(Some(Cell::Absent)),
            [g, more @ ..] => {
                if binds(p, x) {
                    return part_cell(alloc, p, x, g, i);
                }
                rest = more;
            }
        }
    }
    Ok(Some(Cell::Absent))
}

/// The row of a clock name that is no parameter's: of a variable or of a block.
fn named_key(named: Option<&Named>, m: u32) -> Key
    ensures { result ≡ spec.named_key (option_copied named.entry) m }
{
    match named {
        Some(Named::Clock(x)) => Key::Var(*x),
        Some(Named::Match(_, _, _)) => Key::Name(m),
        Some(Named::Present(_, _)) => Key::Name(m),
        Some(Named::Active(_, _)) => Key::Name(m),
        Some(Named::Tested(_, _)) => Key::Name(m),
        None => Key::Name(m),
    }
}

/// Whether a clock name says the case `k`.
#[tactic(auto, using(crate::proofs::Found::arg_found, crate::proofs::Found::named_found))]
fn name_says(body: &Body, m: u32, k: u32, i: usize) -> Option<bool>
    ensures { result ≡ cells_of.say (cells_of.is_case k) (spec.case_row body.now m i) }
{
    let def = body.def.definition();
    let first = def.params.len();
    if (m as usize) < first {
        return parameter_says(body.context.args.as_slice(), m as usize, k, i);
    }
    let key = named_key(nth(def.places.names.as_slice(), m as usize - first), m);
    say_case(k, read(body, key, i))
}

/// Where a clock variable of a signature is on.
fn clock_in(rows: &[(u32, List<Option<bool>>)], w: u32, i: usize) -> Option<bool>
    ensures { result ≡ around.clock_in rows.now w i }
{
    for row in rows {
        if w == row.0 {
            return truth_in(row.1.as_slice(), i);
        }
    }
    Some(false)
}

fn signature_on(clocks: &Clocks, w: u32, i: usize) -> Option<bool>
    ensures { result ≡ around.clocks_of clocks.now w i }
{
    match clocks {
        Clocks::Each(rows) => clock_in(rows.as_slice(), w, i),
        Clocks::All(row) => truth_in(row.as_slice(), i),
    }
}

#[tactic(auto, using(crate::proofs::Around::home_is))]
fn variable_on(body: &Body, w: u32, i: usize) -> Option<bool>
    ensures { result ≡ spec.variable_on body.now w i }
{
    if body.def.in_signature(w) {
        return signature_on(&body.context.clocks, w, i);
    }
    let now = truth_in(body.context.active.as_slice(), i);
    active_in(body, now, body.def.home(w), i)
}

/// Whether a clock is on.
pub fn on(body: &Body, ck: &ClockTerm, i: usize) -> Option<bool>
    ensures { result ≡ spec.on body.now ck.now i }
{
    match ck {
        ClockTerm::Var(w) => variable_on(body, *w, i),
        ClockTerm::On(inner, m, k) => both(on(body, inner.get(), i), name_says(body, *m, *k, i)),
        ClockTerm::Pointwise => Some(false),
        ClockTerm::Arrow(_, _) => Some(false),
    }
}
