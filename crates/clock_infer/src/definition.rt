//! The principal annotation of a definition.

ghost use Rattle.std.specs.Prelude.{◌≡◌, List, length, IfOk, IfSome, IfNone};
ghost use Rattle.clock_infer.specs.Prepared as spec;
ghost use Rattle.clock_rules.specs.Judged.{IsPrincipal, NoneObeys};
ghost use Rattle.clock_rules.specs.declared.scheme.ClockScheme.{ClockScheme};
ghost use Rattle.ls_ast.specs.declared.tree.Mark.{Mark};

use crate::nodes::{Put, are_small};
use crate::puts::{put_body, put_clocks, put_notes};
use clock_conditions::{Bounds, meets};
use clock_fresh::{Fresh, fresh_annotation};
use clock_pairs::{Index, Scene, pairs_of};
use clock_rules::ClockScheme;
use ls_ast::{BodyOf, Mark, Pat};
use ls_base::{List, NoMemory, NoteCopy};
use ls_places::{CasePlaces, NoteSignals, variables};
use ls_sig::{Note, TypeNote};
use ls_terms::ClockTerm;
use std::alloc::Global;
use term_unify::{UnifyFault, unify};

/// The greatest number of nodes of a clock.
const LIMIT: u32 = 4096;

/// The notes of a definition's parameters, and its body, with clocks.
#[derive(Debug, Drop)]
pub struct Clocked {
    pub notes: List<Note>,
    pub body: BodyOf<Note>,
}

/// A definition with a new clock variable wherever a clock may be, and its maps.
#[derive(Drop)]
struct Prepared {
    index: Index,
    notes: List<Note>,
    body: BodyOf<Note>,
    vars: List<ClockTerm>,
    blocks: List<ClockTerm>,
    next: u32,
}

fn prepare<C: CasePlaces>(
    alloc: Global,
    cases: &C,
    params: &List<Pat>,
    notes: &[TypeNote],
    body: &BodyOf<TypeNote>,
) -> Result<Prepared, NoMemory>
    ensures { IfOk result (λ r. (schemes : List ClockScheme) (marks : List Mark) → spec.IsPrepared schemes (C.place cases.now) params.now marks notes.now body.now r) }
{
    let fresh = fresh_annotation(alloc, cases, params, notes, body)?;
    let first = params.len() as u32;
    let variables = variables(alloc, first, cases, &NoteSignals, &fresh.body)?;
    let Fresh {
        notes,
        body,
        places,
        vars,
        blocks,
        next,
    } = fresh;
    let index = Index::new(alloc, params.copy(alloc)?, places, variables)?;
    Ok(Prepared {
        index,
        notes,
        body,
        vars,
        blocks,
        next,
    })
}

/// The most general clocks for the variables of a definition, if some make its pairs equal.
fn solve<C: CasePlaces>(
    alloc: Global,
    schemes: &[ClockScheme],
    cases: &C,
    marks: &List<Mark>,
    it: &Prepared,
) -> Result<Option<Put>, NoMemory>
    ensures solved { IfOk result (λ r. IfSome r (λ s. spec.IsGeneral (spec.pairs schemes.now (C.place cases.now) marks.now it.now) s)) }
    ensures unsolved { IfOk result (λ r. IfNone r (spec.IsUnsolvable (spec.pairs schemes.now (C.place cases.now) marks.now it.now))) }
{
    let scene = Scene {
        schemes,
        cases,
        index: &it.index,
        marks: marks.as_slice(),
        notes: it.notes.as_slice(),
        result: &it.body.result.note,
        vars: it.vars.as_slice(),
        blocks: it.blocks.as_slice(),
    };
    let pairs = pairs_of(alloc, &scene, it.next)?;
    match unify(alloc, &pairs, LIMIT) {
        Ok(by) => Ok(Some(by)),
        Err(UnifyFault::Clash) => Ok(None),
        Err(UnifyFault::NoMemory) => Err(NoMemory),
    }
}

/// The definition with these terms for its variables, if it meets the conditions.
fn check(
    alloc: Global,
    params: &List<Pat>,
    marks: &List<Mark>,
    it: &Prepared,
    by: &Put,
) -> Result<Option<Clocked>, NoMemory>
    requires vars { length it.now.vars ≡ length it.now.index.places.vars }
    requires blocks { length it.now.blocks ≡ length it.now.index.places.names }
    ensures met { IfOk result (λ r. IfSome r (λ c. spec.IsChecked params.now marks.now it.now by.now c)) }
    ensures unmet { IfOk result (λ r. IfNone r (spec.Meets params.now marks.now it.now by.now → ⊥)) }
{
    let notes = put_notes(alloc, it.notes.as_slice(), by)?;
    let body = put_body(alloc, &it.body, by)?;
    let vars = put_clocks(alloc, it.vars.as_slice(), by)?;
    let blocks = put_clocks(alloc, it.blocks.as_slice(), by)?;
    let bounds = Bounds {
        params,
        marks,
        notes: notes.as_slice(),
        result: &body.result.note,
        vars: it.index.places.vars.as_slice(),
        names: it.index.places.names.as_slice(),
        var_clocks: vars.as_slice(),
        block_clocks: blocks.as_slice(),
    };
    if !are_small(alloc, &it.index.places.exprs, by)? {
        return Ok(None);
    }
    if !meets(alloc, &bounds)? {
        return Ok(None);
    }
    Ok(Some(Clocked { notes, body }))
}

/// The principal annotation of a typed definition, over the schemes of those before it; none where
/// no annotation obeys the rules. The one refusal is want of memory, or of numbers for its
/// variables.
pub fn clock_definition<C: CasePlaces>(
    alloc: Global,
    schemes: &[ClockScheme],
    cases: &C,
    params: &List<Pat>,
    marks: &List<Mark>,
    notes: &[TypeNote],
    body: &BodyOf<TypeNote>,
) -> Result<Option<Clocked>, NoMemory>
    ensures principal { IfOk result (λ r. IfSome r (λ c. IsPrincipal schemes.now (C.place cases.now) params.now marks.now notes.now body.now c.notes c.body)) }
    ensures none { IfOk result (λ r. IfNone r (NoneObeys schemes.now (C.place cases.now) params.now marks.now notes.now body.now)) }
{
    let it = prepare(alloc, cases, params, notes, body)?;
    match solve(alloc, schemes, cases, marks, &it)? {
        None => Ok(None),
        Some(by) => check(alloc, params, marks, &it, &by),
    }
}
