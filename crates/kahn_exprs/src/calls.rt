//! What answers the calls in a body.

ghost use Rattle.std.specs.Prelude.{◌≡◌, IfOk, option_map};
ghost use Rattle.kahn_exprs.specs.Body as spec;
ghost use Rattle.kahn_exprs.specs.Calls as own;
ghost use Rattle.kahn_exprs.specs.Context as around;
ghost use Rattle.kahn_model.specs.Table as rows;

use crate::body::Body;
use crate::context::{Argument, Clocks, Context, add_arguments, add_given, base, give};
use crate::rows::{absent_row, active_row, on_row, restart_row};
use kahn_cells::clocks::is_function;
use kahn_model::Cell;
use ls_base::{List, NoMemory, NoteCopy};
use ls_places::Frame;
use ls_sig::Note;
use std::alloc::Global;

/// What answers the calls in a body. A definition is called in a context, which is what is around
/// its own body.
pub trait Calls {
    ghost use Rattle.kahn_exprs.specs.declared.body.Body.{Body};

    ghost can: { Self → Body → Type 0 };

    /// The row of the result of the definition `k`, with a cell for each line.
    fn answer(
        &self,
        alloc: Global,
        body: &Body,
        k: u32,
        context: Context,
    ) -> Result<List<Option<Cell>>, NoMemory>
        requires { can self.now body.now }
        ensures { IfOk result (λ r. r ≡ rows.written_row body.now.lines 0 (spec.call body.now k (around.around_of context))) };
}

/// The definition that a function value calls where it is applied to these arguments, and what is
/// around its body. A function that has no clock of its own is on where the call is.
fn target(
    alloc: Global,
    f: &Argument,
    args: &[Argument],
    here: List<Option<bool>>,
    active: List<Option<bool>>,
    again: List<Option<bool>>,
) -> Result<Option<(u32, Context)>, NoMemory>
    ensures { IfOk result (λ r. option_map own.place_of r ≡ own.target (around.arg_of f.now) (around.args_of args.now) (rows.cell_in here) (rows.cell_in active) (rows.cell_in again)) }
{
    let mut all = List::new(alloc);
    add_given(alloc, f, &mut all)?;
    add_arguments(alloc, args, &mut all)?;
    match base(f) {
        Argument::Function(k, known) => {
            let clocks = Clocks::Each(known.copy(alloc)?);
            Ok(Some((
                *k,
                Context {
                    active,
                    again,
                    clocks,
                    args: all,
                },
            )))
        }
        Argument::Pointwise(k) => Ok(Some((
            *k,
            Context {
                active,
                again,
                clocks: Clocks::All(here),
                args: all,
            },
        ))),
        Argument::Stream(_) => Ok(None),
        Argument::Given(_, _) => Ok(None),
    }
}

/// The definition that is called at a place, and what is around its body.
pub fn called_at(
    alloc: Global,
    body: &Body,
    place: &[Frame],
    note: &Note,
    f: &Argument,
    args: &[Argument],
    every: &Option<List<Option<Cell>>>,
) -> Result<Option<(u32, Context)>, NoMemory>
    ensures { IfOk result (λ r. option_map own.place_of r ≡ own.target_at body.now place.now note.now (around.arg_of f.now) (around.args_of args.now) every.now) }
{
    let here = on_row(alloc, body, &note.ck)?;
    let active = active_row(alloc, body, place)?;
    let again = restart_row(alloc, body, place, every)?;
    target(alloc, f, args, here, active, again)
}

/// The row of a definition that is called, absent where there is none.
fn target_row<C: Calls>(
    alloc: Global,
    body: &Body,
    call: &C,
    target: Option<(u32, Context)>,
) -> Result<List<Option<Cell>>, NoMemory>
    requires { C.can call.now body.now }
    ensures { IfOk result (λ r. r ≡ rows.written_row body.now.lines 0 (own.target_row (spec.call body.now) (option_map own.place_of target))) }
{
    match target {
        None => absent_row(alloc, body.lines),
        Some((k, context)) => call.answer(alloc, body, k, context),
    }
}

/// What stands at a call: with fewer arguments than parameters it is a function value.
pub fn called<C: Calls>(
    alloc: Global,
    body: &Body,
    call: &C,
    place: &[Frame],
    note: &Note,
    f: Argument,
    args: List<Argument>,
    every: Option<List<Option<Cell>>>,
) -> Result<Argument, NoMemory>
    requires { C.can call.now body.now }
    ensures { IfOk result (λ r. around.arg_of r ≡ own.called body.now place.now note.now (around.arg_of f) (around.args_of args) every) }
{
    if is_function(note) {
        return give(alloc, f, args.as_slice());
    }
    let at = called_at(alloc, body, place, note, &f, args.as_slice(), &every)?;
    Ok(Argument::Stream(target_row(alloc, body, call, at)?))
}
