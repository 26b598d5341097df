//! The pairs of expressions: the walk through an expression that collects them.

ghost use Rattle.std.specs.Prelude.{◌≡◌, ◌++◌, ◌∷◌, [], OnOk};
ghost use Rattle.clock_pairs.specs.Scene as spec;
ghost use Rattle.clock_pairs.specs.Walks as walks;

use crate::arms::{Pair, add_condition, add_used};
use crate::calls::{add_call, add_name, add_pair, add_parts_on};
use crate::scene::Scene;
use crate::terms::{count_at, is_function, on};
use clock_fresh::some_vars;
use ls_ast::{Case, Expr, Form};
use ls_base::{List, NoMemory, NoteCopy};
use ls_places::{CasePlaces, Frame};
use ls_sig::Note;
use ls_terms::ClockTerm;
use std::alloc::Global;

/// Whether this is a function that is given a stream, or a function that holds one.
#[cycle(holds)]
fn holds(e: &Expr<Note>) -> bool
    ensures { result ≡ walks.holds e.now }
{
    is_function(&e.note.ty) && gives(e.form.get())
}

#[cycle(holds)]
fn gives(form: &Form<Note>) -> bool
    ensures { result ≡ walks.gives form.now }
{
    match form {
        Form::Call { args, .. } => streams(args.as_slice()),
        Form::Leaf(_) => false,
        Form::Case(_) => false,
        Form::Var(_) => false,
        Form::Last(_) => false,
        Form::Asked(_) => false,
        Form::Op(_, _) => false,
        Form::Tuple(_) => false,
        Form::Pre(_) => false,
        Form::Fby(_, _) => false,
        Form::Init(_, _) => false,
        Form::When(_, _, _) => false,
        Form::Merge(_, _) => false,
    }
}

/// Whether something given is a stream, or a function that holds one.
#[cycle(holds)]
fn streams(all: &[Expr<Note>]) -> bool
    ensures { result ≡ walks.streams all.now }
{
    for e in all {
        if !is_function(&e.note.ty) || holds(e) {
            return true;
        }
    }
    false
}

/// The branches of a `merge` are on its clock, sampled each at its case.
fn add_branches<C: CasePlaces>(
    alloc: Global,
    ck: &ClockTerm,
    m: u32,
    all: &[(Case, Expr<Note>)],
    scene: &Scene<C>,
    out: &mut List<Pair>,
) -> Result<(), NoMemory>
    ensures { OnOk result (out.new ≡ out.old ++ spec.branch_pairs C.place scene.now ck.now m all.now) }
{
    for choice in all {
        let inside = on(alloc, ck.copy(alloc)?, m, scene.case_number(choice.0))?;
        out.push((choice.1.note.ck.copy(alloc)?, inside))?;
    }
    Ok(())
}

/// The operands of a delay are on its clock.
fn add_two(
    alloc: Global,
    a: &ClockTerm,
    b: &ClockTerm,
    ck: &ClockTerm,
    out: &mut List<Pair>,
) -> Result<(), NoMemory>
    ensures { OnOk result (out.new ≡ out.old ++ (a.now, ck.now) ∷ (b.now, ck.now) ∷ []) }
{
    add_pair(alloc, a, ck, out)?;
    add_pair(alloc, b, ck, out)
}

/// A sampling, of a stream on this clock.
fn add_when<C: CasePlaces>(
    alloc: Global,
    note: &Note,
    ck: &ClockTerm,
    case: Case,
    scene: &Scene<C>,
    out: &mut List<Pair>,
) -> Result<(), NoMemory>
    ensures { OnOk result (out.new ≡ out.old ++ spec.when_pairs C.place scene.now note.now ck.now case) }
{
    add_condition(alloc, note.bound, ck, scene, out)?;
    let m = scene.number_or(note.bound);
    let sampled = on(alloc, ck.copy(alloc)?, m, scene.case_number(case))?;
    out.push((sampled, note.ck.copy(alloc)?))
}

/// A `merge`.
fn add_merge<C: CasePlaces>(
    alloc: Global,
    note: &Note,
    all: &[(Case, Expr<Note>)],
    scene: &Scene<C>,
    out: &mut List<Pair>,
) -> Result<(), NoMemory>
    ensures { OnOk result (out.new ≡ out.old ++ spec.merge_pairs C.place scene.now note.now all.now) }
{
    add_condition(alloc, note.bound, &note.ck, scene, out)?;
    let m = scene.number_or(note.bound);
    add_branches(alloc, &note.ck, m, all, scene, out)
}

/// The pairs of one form, with the clocks for the variables of the signature that its name means.
fn add_form<C: CasePlaces>(
    alloc: Global,
    by: &[ClockTerm],
    place: &[Frame],
    note: &Note,
    holds: bool,
    form: &Form<Note>,
    scene: &Scene<C>,
    out: &mut List<Pair>,
) -> Result<(), NoMemory>
    ensures { OnOk result (out.new ≡ out.old ++ spec.form_pairs C.place scene.now by.now place.now note.now holds form.now) }
{
    match form {
        Form::Leaf(_) => Ok(()),
        Form::Case(_) => Ok(()),
        Form::Var(_) => add_name(alloc, by, note, place, scene, out),
        Form::Last(_) => add_used(alloc, note, place, scene, out),
        Form::Asked(_) => add_used(alloc, note, place, scene, out),
        Form::Op(_, args) => add_parts_on(alloc, &note.ck, args.as_slice(), scene, out),
        Form::Tuple(all) => add_parts_on(alloc, &note.ck, all.as_slice(), scene, out),
        Form::Pre(e) => add_pair(alloc, &e.note.ck, &note.ck, out),
        Form::Fby(a, b) => add_two(alloc, &a.note.ck, &b.note.ck, &note.ck, out),
        Form::Init(a, b) => add_two(alloc, &a.note.ck, &b.note.ck, &note.ck, out),
        Form::When(e, _, case) => add_when(alloc, note, &e.note.ck, *case, scene, out),
        Form::Merge(_, all) => add_merge(alloc, note, all.as_slice(), scene, out),
        Form::Call { run, args, .. } => {
            add_call(alloc, by, *run, note, args.as_slice(), holds, scene, out)
        }
    }
}

/// The pairs so far, and the number of the next variable.
#[derive(Drop)]
pub struct Collected {
    pub list: List<Pair>,
    pub next: u32,
}

/// The pairs of an expression without those of its parts, with new variables for those of the
/// signature that its name means.
fn collect_node<C: CasePlaces>(
    alloc: Global,
    e: &Expr<Note>,
    place: &[Frame],
    scene: &Scene<C>,
    state: &mut Collected,
) -> Result<(), NoMemory>
    ensures { OnOk result (state.new ≡ walks.took C.place scene.now (walks.node e.now place.now) state.old) }
{
    let holds = holds(e);
    let count = count_at(scene.schemes, e.note.bound);
    let by = some_vars(alloc, count, &mut state.next)?;
    add_form(
        alloc,
        by.as_slice(),
        place,
        &e.note,
        holds,
        e.form.get(),
        scene,
        &mut state.list,
    )
}

/// Adds the pairs of an expression where it stands.
#[cycle(collect)]
pub fn collect_expr<C: CasePlaces>(
    alloc: Global,
    e: &Expr<Note>,
    place: &[Frame],
    scene: &Scene<C>,
    state: &mut Collected,
) -> Result<(), NoMemory>
    ensures { OnOk result (state.new ≡ walks.collected C.place scene.now (walks.nodes e.now place.now) state.old) }
{
    collect_node(alloc, e, place, scene, state)?;
    collect_form(alloc, e.form.get(), place, scene, state)
}

#[cycle(collect)]
fn collect_form<C: CasePlaces>(
    alloc: Global,
    form: &Form<Note>,
    place: &[Frame],
    scene: &Scene<C>,
    state: &mut Collected,
) -> Result<(), NoMemory>
    ensures { OnOk result (state.new ≡ walks.walked C.place scene.now place.now (walks.parts form.now) state.old) }
{
    match form {
        Form::Leaf(_) => Ok(()),
        Form::Case(_) => Ok(()),
        Form::Var(_) => Ok(()),
        Form::Last(_) => Ok(()),
        Form::Asked(_) => Ok(()),
        Form::Op(_, args) => collect_all(alloc, args.as_slice(), place, scene, state),
        Form::Tuple(all) => collect_all(alloc, all.as_slice(), place, scene, state),
        Form::Pre(e) => collect_expr(alloc, e, place, scene, state),
        Form::Fby(a, b) => {
            collect_expr(alloc, a, place, scene, state)?;
            collect_expr(alloc, b, place, scene, state)
        }
        Form::Init(a, b) => {
            collect_expr(alloc, a, place, scene, state)?;
            collect_expr(alloc, b, place, scene, state)
        }
        Form::When(e, _, _) => collect_expr(alloc, e, place, scene, state),
        Form::Merge(_, all) => collect_branches(alloc, all.as_slice(), place, scene, state),
        Form::Call { args, every, .. } => {
            collect_all(alloc, args.as_slice(), place, scene, state)?;
            collect_every(alloc, every, place, scene, state)
        }
    }
}

#[cycle(collect)]
fn collect_all<C: CasePlaces>(
    alloc: Global,
    all: &[Expr<Note>],
    place: &[Frame],
    scene: &Scene<C>,
    state: &mut Collected,
) -> Result<(), NoMemory>
    ensures { OnOk result (state.new ≡ walks.walked C.place scene.now place.now all.now state.old) }
{
    for e in all {
        collect_expr(alloc, e, place, scene, state)?;
    }
    Ok(())
}

#[cycle(collect)]
fn collect_branches<C: CasePlaces>(
    alloc: Global,
    all: &[(Case, Expr<Note>)],
    place: &[Frame],
    scene: &Scene<C>,
    state: &mut Collected,
) -> Result<(), NoMemory>
    ensures { OnOk result (state.new ≡ walks.walked C.place scene.now place.now (walks.branches all.now) state.old) }
{
    for choice in all {
        collect_expr(alloc, &choice.1, place, scene, state)?;
    }
    Ok(())
}

#[cycle(collect)]
fn collect_every<C: CasePlaces>(
    alloc: Global,
    every: &Option<Expr<Note>>,
    place: &[Frame],
    scene: &Scene<C>,
    state: &mut Collected,
) -> Result<(), NoMemory>
    ensures { OnOk result (state.new ≡ walks.walked C.place scene.now place.now (walks.maybe every.now) state.old) }
{
    match every {
        None => Ok(()),
        Some(e) => collect_expr(alloc, e, place, scene, state),
    }
}
