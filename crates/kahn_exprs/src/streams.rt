//! What stands for a name.

ghost use Rattle.std.specs.Prelude.{◌≡◌, IfOk};
ghost use Rattle.kahn_exprs.specs.Context as around;
ghost use Rattle.kahn_exprs.specs.Streams as own;

use crate::body::Body;
use crate::context::{Argument, copy_argument, copy_cells};
use crate::rows::absent_row;
use kahn_cells::cells::part;
use kahn_cells::search::binds;
use kahn_model::Cell;
use ls_ast::Pat;
use ls_base::{List, NoMemory};
use ls_places::Key;
use ls_sig::Binder;
use std::alloc::Global;

/// The row of the part of a row that a pattern gives to a name.
fn part_row(
    alloc: Global,
    p: &Pat,
    x: u32,
    cells: &[Option<Cell>],
) -> Result<List<Option<Cell>>, NoMemory>
    ensures { IfOk result (λ r. r ≡ own.part_row p.now x cells.now) }
{
    let mut done = List::new(alloc);
    for c in cells {
        done.push(match c {
            None => None,
            Some(c) => Some(part(alloc, p, x, c)?),
        })?;
    }
    Ok(done)
}

/// The part of an argument that a pattern gives to a name.
fn part_of(alloc: Global, p: &Pat, x: u32, arg: &Argument) -> Result<Argument, NoMemory>
    ensures { IfOk result (λ r. around.arg_of r ≡ own.part_of p.now x arg.now) }
{
    match arg {
        Argument::Stream(cells) => Ok(Argument::Stream(part_row(alloc, p, x, cells.as_slice())?)),
        Argument::Function(_, _) => copy_argument(alloc, arg),
        Argument::Pointwise(_) => copy_argument(alloc, arg),
        Argument::Given(_, _) => copy_argument(alloc, arg),
    }
}

/// What stands for the name of a parameter.
fn param(
    alloc: Global,
    lines: u32,
    x: u32,
    params: &[Pat],
    args: &[Argument],
) -> Result<Argument, NoMemory>
    ensures { IfOk result (λ r. around.arg_of r ≡ own.param lines x params.now args.now) }
{
    let mut rest = args;
    for p in params {
        match rest {
            [] => return Ok(Argument::Stream(absent_row(alloc, lines)?)),
            [g, more @ ..] => {
                if binds(p, x) {
                    return part_of(alloc, p, x, g);
                }
                rest = more;
            }
        }
    }
    Ok(Argument::Stream(absent_row(alloc, lines)?))
}

/// What stands for a name that is no definition.
pub fn look(alloc: Global, body: &Body, bound: Binder, x: u32) -> Result<Argument, NoMemory>
    ensures { IfOk result (λ r. around.arg_of r ≡ own.look body.now bound x) }
{
    match bound {
        Binder::Var(k) => Ok(Argument::Stream(copy_cells(alloc, body.rows.row(Key::Var(k)))?)),
        Binder::Param(_) => param(
            alloc,
            body.lines,
            x,
            body.def.definition().params.as_slice(),
            body.context.args.as_slice(),
        ),
        Binder::Nothing => Ok(Argument::Stream(absent_row(alloc, body.lines)?)),
        Binder::Def(_) => Ok(Argument::Stream(absent_row(alloc, body.lines)?)),
        Binder::Case(_, _) => Ok(Argument::Stream(absent_row(alloc, body.lines)?)),
    }
}
