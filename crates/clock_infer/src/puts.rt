//! Terms in place of the variables of clocks.

ghost use Rattle.std.specs.Prelude.{◌≡◌, map, IfOk};
ghost use Rattle.clock_rules.specs.Instances.{in_note};
ghost use Rattle.ls_sig.specs.declared.binder.Note.{Note};
ghost use Rattle.ls_terms.specs.Clocks.{apply};
ghost use Rattle.term_unify.specs.Terms.{first};
ghost use Rattle.tree_notes.specs.Noted.{in_body};

use crate::nodes::Put;
use ls_ast::BodyOf;
use ls_base::{List, NoMemory, NoteCopy};
use ls_sig::Note;
use ls_terms::ClockTerm;
use std::alloc::Global;
use term_unify::Term;
use tree_notes::{Renote, renote_body, renote_notes};

/// Puts terms for the variables of each note's clock.
#[derive(Drop)]
struct Putting<'a> {
    by: &'a Put,
}

impl<'a> Renote<Note, Note> for Putting<'a> {
    ghost use Rattle.clock_rules.specs.Instances.{in_note};
    ghost use Rattle.term_unify.specs.Terms.{first};

    ghost step = { λ it n. in_note (first it.by.now.list) n };

    ghost next = { λ it n. it };

    fn note(&mut self, alloc: Global, old: &Note) -> Result<Note, NoMemory> {
        Ok(Note {
            bound: old.bound,
            ty: old.ty.copy(alloc)?,
            ck: old.ck.put(alloc, self.by)?,
            restarts: old.restarts.copy(alloc)?,
        })
    }
}

/// The notes with terms for the variables of their clocks.
pub fn put_notes(alloc: Global, notes: &[Note], by: &Put) -> Result<List<Note>, NoMemory>
    ensures { IfOk result (λ r. r ≡ map (in_note (first by.now.list)) notes.now) }
{
    let mut putting = Putting { by };
    let notes = renote_notes(alloc, notes, &mut putting)?;
    Ok(notes)
}

/// The body with terms for the variables of the clocks in it.
pub fn put_body(alloc: Global, body: &BodyOf<Note>, by: &Put) -> Result<BodyOf<Note>, NoMemory>
    ensures { IfOk result (λ r. r ≡ in_body Note Note (in_note (first by.now.list)) body.now) }
{
    let mut putting = Putting { by };
    let body = renote_body(alloc, body, &mut putting)?;
    Ok(body)
}

/// The clocks with terms for their variables.
pub fn put_clocks(
    alloc: Global,
    clocks: &[ClockTerm],
    by: &Put,
) -> Result<List<ClockTerm>, NoMemory>
    ensures { IfOk result (λ r. r ≡ map (apply (first by.now.list)) clocks.now) }
{
    let mut done = List::new(alloc);
    for ck in clocks {
        done.push(ck.put(alloc, by)?)?;
    }
    Ok(done)
}
