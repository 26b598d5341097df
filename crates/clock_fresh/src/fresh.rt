//! The fresh annotation of a definition.

ghost use Rattle.std.specs.Prelude.{◌≡◌, ◌<◌, ◌+◌, ◌^◌, length, List, IfOk};
ghost use Rattle.clock_fresh.specs.IsFresh.{IsFresh};
ghost use Rattle.clock_rules.specs.declared.scheme.ClockScheme.{ClockScheme};
ghost use Rattle.ls_ast.specs.declared.tree.Mark.{Mark};

use crate::shapes::{Clocking, some_vars};
use ls_ast::{BodyOf, Pat};
use ls_base::{List, NoMemory};
use ls_places::{CasePlaces, NoteSignals, Places, find};
use ls_sig::{Note, TypeNote};
use ls_terms::ClockTerm;
use std::alloc::Global;
use tree_notes::{renote_body, renote_notes};

/// A definition with a new clock variable wherever a clock may be: the notes of its parameters and
/// its body, with what stands where in it, and a clock for each of its variables and for each
/// clock name that is no parameter. Variables are numbered in this order.
#[derive(Drop)]
pub struct Fresh {
    pub notes: List<Note>,
    pub body: BodyOf<Note>,
    pub places: Places<Note>,
    pub vars: List<ClockTerm>,
    pub blocks: List<ClockTerm>,
    /// The number of the next variable.
    pub next: u32,
}

/// The fresh annotation of a definition. It is refused where memory is, and where more variables
/// would be needed than there are numbers.
pub fn fresh_annotation<C: CasePlaces>(
    alloc: Global,
    cases: &C,
    params: &List<Pat>,
    notes: &[TypeNote],
    body: &BodyOf<TypeNote>,
) -> Result<Fresh, NoMemory>
    ensures fresh { IfOk result (λ r. (schemes : List ClockScheme) (marks : List Mark) → IsFresh schemes (C.place cases.now) params.now marks notes.now body.now r) }
    ensures numbered { IfOk result (λ r. length params.now + length r.places.names < 2 ^ 32) }
{
    let mut by = Clocking { next: 0 };
    let notes = renote_notes(alloc, notes, &mut by)?;
    let body = renote_body(alloc, body, &mut by)?;
    let places = find(alloc, params.len() as u32, cases, &NoteSignals, &body)?;
    let mut next = by.next;
    let vars = some_vars(alloc, places.vars.len() as u64, &mut next)?;
    let blocks = some_vars(alloc, places.names.len() as u64, &mut next)?;
    Ok(Fresh {
        notes,
        body,
        places,
        vars,
        blocks,
        next,
    })
}
