//! The definitions of a file, with what stands where in them, and its nodes.

ghost use Rattle.std.specs.Prelude.{◌≡◌, ◌++◌, ◌∷◌, [], IfOk, OnOk};
ghost use Rattle.kahn_model.specs.Program as program;
ghost use Rattle.kahn_model.specs.Table as rows;
ghost use Rattle.kahn_plain.specs.Node as own;
ghost use Rattle.kahn_plain.specs.Turns as turns;
ghost use Rattle.ls_places.specs.Definitions as places;

use crate::node::{Answer, network};
use kahn_cells::{Constructors, Prepared};
use kahn_model::Cell;
use ls_ast::{BodyOf, DefOf, Pat};
use ls_base::{List, NoMemory, NoteCopy};
use ls_places::{Definition, NoteSignals, find};
use ls_sig::Note;
use ls_terms::ClockTerm;
use std::alloc::Global;

fn note_clocks(alloc: Global, notes: &[Note]) -> Result<List<ClockTerm>, NoMemory>
    ensures { IfOk result (λ r. r ≡ places.note_clocks notes.now) }
{
    let mut done = List::new(alloc);
    for note in notes {
        done.push(note.ck.copy(alloc)?)?;
    }
    Ok(done)
}

/// A definition with what stands where in it.
fn definition(
    alloc: Global,
    file: &Constructors,
    params: &List<Pat>,
    notes: &[Note],
    body: &BodyOf<Note>,
) -> Result<Prepared, NoMemory>
    ensures definition { IfOk result (λ r. r ≡ places.definition_of (places.case_place file.now) params.now notes.now body.now) }
    ensures numbered { IfOk result (λ r. turns.AreNumbered r) }
{
    let found = find(alloc, params.len() as u32, file, &NoteSignals, body)?;
    let def = Definition {
        params: params.copy(alloc)?,
        clocks: note_clocks(alloc, notes)?,
        result: body.result.copy(alloc)?,
        places: found,
    };
    Prepared::new(alloc, def)
}

/// An item of the file, where it is a definition.
fn add_definition(
    alloc: Global,
    file: &Constructors,
    item: &DefOf<Note>,
    done: &mut List<Prepared>,
) -> Result<(), NoMemory>
    requires { turns.EachNumbered done.old }
    ensures definition { OnOk result (done.new ≡ done.old ++ places.definitions (places.case_place file.now) (item.now ∷ [])) }
    ensures numbered { OnOk result (turns.EachNumbered done.new) }
{
    match item {
        DefOf::Cases { .. } => Ok(()),
        DefOf::Let {
            params,
            notes,
            body,
            ..
        } => done.push(definition(alloc, file, params, notes.as_slice(), body)?),
    }
}

/// The `let` definitions among some, in order, with what stands where in them.
pub fn definitions(
    alloc: Global,
    file: &Constructors,
    all: &[DefOf<Note>],
) -> Result<List<Prepared>, NoMemory>
    ensures definitions { IfOk result (λ r. r ≡ places.definitions (places.case_place file.now) all.now) }
    ensures numbered { IfOk result (λ r. turns.AllNumbered r) }
{
    let mut done = List::new(alloc);
    for item in all {
        add_definition(alloc, file, item, &mut done)?;
    }
    Ok(done)
}

/// The row of the result of the `let` definition of this number, and its alarms, as the network of
/// streams of the file gives them on these rows of its parameters.
pub fn program_network(
    alloc: Global,
    file: &[DefOf<Note>],
    lines: u32,
    k: u32,
    args: List<List<Option<Cell>>>,
) -> Result<Answer, NoMemory>
    ensures row { IfOk result (λ r. r.row ≡ rows.written_row lines 0 (program.network file.now lines k (own.streams args))) }
    ensures alarms { IfOk result (λ r. r.alarms ≡ rows.written_row lines 0 (program.alarms file.now lines k (own.streams args))) }
{
    let cases = Constructors::new(alloc, file)?;
    let defs = definitions(alloc, &cases, file)?;
    network(alloc, &cases, defs.as_slice(), lines, k, args)
}
