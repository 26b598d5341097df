//! The trees of a definition: with numbered places, and with types.

ghost use Rattle.std.specs.Prelude.{◌≡◌, map, IfOk, OnOk};
ghost use Rattle.tree_notes.specs.Noted.{in_body};
ghost use Rattle.tree_notes.specs.Numbered.{number_body, number_notes};
ghost use Rattle.type_infer.specs.Inference as spec;
ghost use Rattle.type_rules.specs.Numbers.{Placed, placer, place_next, place_step};
ghost use Rattle.type_rules.specs.Principal.{typed_by};

use ls_ast::BodyOf;
use ls_base::{List, NoMemory, NoteCopy};
use ls_sig::{TypeNote, Use};
use ls_terms::TypeTerm;
use std::alloc::Global;
use tree_notes::{Placer, Renote, renote_body, renote_notes};
use type_readings::Placed;
use type_solve::Solution;

/// The notes of the parameters and the body, with a number for each place.
#[derive(Drop)]
pub struct Numbered {
    pub notes: List<Placed>,
    pub body: BodyOf<Placed>,
}

/// The notes of the parameters and the body, with a type for each place.
#[derive(Drop)]
pub struct Annotated {
    pub notes: List<TypeNote>,
    pub body: BodyOf<TypeNote>,
}

/// Numbers the places of a definition from a number on: the parameters, and then the body.
pub fn number(
    alloc: Global,
    first: u32,
    notes: &[Use],
    body: &BodyOf<Use>,
) -> Result<Numbered, NoMemory>
    ensures notes { IfOk result (λ r. r.notes ≡ (number_notes place_step place_next notes.now (placer first)).0) }
    ensures body { IfOk result (λ r. r.body ≡ (number_body place_step place_next body.now (number_notes place_step place_next notes.now (placer first)).1).0) }
{
    let mut by = Placer { next: first };
    let notes = renote_notes(alloc, notes, &mut by)?;
    let body = renote_body(alloc, body, &mut by)?;
    Ok(Numbered { notes, body })
}

/// What a solution gives a place.
fn type_of(alloc: Global, solution: &Solution, place: u32) -> Result<TypeTerm, NoMemory>
    ensures { IfOk result (λ r. r ≡ spec.type_of solution.now place) }
{
    match solution.own.checked_add(place) {
        None => Err(NoMemory),
        Some(variable) => match solution.by.get(variable) {
            Some(value) => value.copy(alloc),
            None => Ok(TypeTerm::Var(variable)),
        },
    }
}

/// Gives each place its type.
#[derive(Drop)]
struct Typer<'a> {
    solution: &'a Solution,
}

impl Renote<Placed, TypeNote> for Typer<'_> {
    ghost use Rattle.type_infer.specs.Inference as spec;
    ghost use Rattle.type_rules.specs.Principal.{typed_by};

    ghost step = { λ it n. typed_by (spec.type_of it.solution.now) n };

    ghost next = { λ it n. it };

    fn note(&mut self, alloc: Global, old: &Placed) -> Result<TypeNote, NoMemory> {
        let bound = old.0.bound;
        let ty = type_of(alloc, self.solution, old.1)?;
        Ok(TypeNote { bound, ty })
    }
}

/// Puts the type that a solution gives each place into the trees.
pub fn annotate(
    alloc: Global,
    solution: &Solution,
    numbered: &Numbered,
) -> Result<Annotated, NoMemory>
    ensures notes { IfOk result (λ r. r.notes ≡ map (typed_by (spec.type_of solution.now)) numbered.now.notes) }
    ensures body { IfOk result (λ r. r.body ≡ in_body Placed TypeNote (typed_by (spec.type_of solution.now)) numbered.now.body) }
{
    let mut by = Typer { solution };
    let notes = renote_notes(alloc, numbered.notes.as_slice(), &mut by)?;
    let body = renote_body(alloc, &numbered.body, &mut by)?;
    Ok(Annotated { notes, body })
}
