//! The pairs of calls.

ghost use Rattle.std.specs.Prelude.{◌≡◌, ◌++◌, ◌∷◌, [], Some, IfOk, OnOk};
ghost use Rattle.std.specs.Option.{option_copied};
ghost use Rattle.clock_pairs.specs.Scene as spec;
ghost use Rattle.clock_pairs.specs.Terms as given;
ghost use Rattle.ls_places.specs.Definitions.{note_clocks};
ghost use Rattle.ls_places.specs.Search.{nth};

use crate::arms::{Pair, add_condition, add_used};
use crate::index::nth;
use crate::scene::{Meant, Scene};
use crate::terms::{arrow, copy_past, instance, instances, is_comb, is_function};
use clock_rules::ClockScheme;
use ls_ast::Expr;
use ls_base::{List, NoMemory, NoteCopy};
use ls_places::{CasePlaces, Frame};
use ls_sig::{Binder, Note};
use ls_terms::ClockTerm;
use std::alloc::Global;

/// Two clocks that have to be equal.
pub fn add_pair(
    alloc: Global,
    a: &ClockTerm,
    b: &ClockTerm,
    out: &mut List<Pair>,
) -> Result<(), NoMemory>
    ensures { OnOk result (out.new ≡ out.old ++ (a.now, b.now) ∷ []) }
{
    out.push((a.copy(alloc)?, b.copy(alloc)?))
}

/// All parts are on this clock.
pub fn add_parts_on<C: CasePlaces>(
    alloc: Global,
    ck: &ClockTerm,
    args: &[Expr<Note>],
    _scene: &Scene<C>,
    out: &mut List<Pair>,
) -> Result<(), NoMemory>
    ensures { OnOk result (out.new ≡ out.old ++ spec.parts_on C.place _scene.now ck.now args.now) }
{
    for e in args {
        add_pair(alloc, &e.note.ck, ck, out)?;
    }
    Ok(())
}

/// All parts that are no functions are on this clock.
fn add_streams_on<C: CasePlaces>(
    alloc: Global,
    ck: &ClockTerm,
    args: &[Expr<Note>],
    _scene: &Scene<C>,
    out: &mut List<Pair>,
) -> Result<(), NoMemory>
    ensures { OnOk result (out.new ≡ out.old ++ spec.streams_on C.place _scene.now ck.now args.now) }
{
    for e in args {
        if !is_function(&e.note.ty) {
            add_pair(alloc, &e.note.ck, ck, out)?;
        }
    }
    Ok(())
}

/// The clock name given at each position.
fn given_names<C: CasePlaces>(
    alloc: Global,
    args: &[Expr<Note>],
    scene: &Scene<C>,
) -> Result<List<u32>, NoMemory>
    ensures { IfOk result (λ r. r ≡ spec.names_given C.place scene.now args.now) }
{
    let mut names = List::new(alloc);
    for e in args {
        names.push(scene.number_or(e.note.bound))?;
    }
    Ok(names)
}

/// What is given meets the clocks of the parameters.
fn add_meet<C: CasePlaces>(
    alloc: Global,
    clocks: &[ClockTerm],
    args: &[Expr<Note>],
    _scene: &Scene<C>,
    out: &mut List<Pair>,
) -> Result<(), NoMemory>
    ensures { OnOk result (out.new ≡ out.old ++ spec.meet C.place _scene.now clocks.now args.now) }
{
    for (at, e) in args.iter().enumerate() {
        match clocks.get(at) {
            Some(ck) => add_pair(alloc, ck, &e.note.ck, out)?,
            None => return Ok(()),
        }
    }
    Ok(())
}

/// The note of the argument at a position.
fn note_at(args: &[Expr<Note>], at: usize) -> Option<&Note>
    ensures { option_copied result ≡ nth (spec.notes_of args.now) at }
{
    match nth(args, at) {
        Some(e) => Some(&e.note),
        None => None,
    }
}

/// What is given at a Clock position is on the clock of the name that it is.
fn add_named<C: CasePlaces>(
    alloc: Global,
    args: &[Expr<Note>],
    names: &[u32],
    scene: &Scene<C>,
    out: &mut List<Pair>,
) -> Result<(), NoMemory>
    ensures { OnOk result (out.new ≡ out.old ++ spec.named_pairs C.place scene.now args.now names.now) }
{
    for at in names {
        add_named_at(alloc, note_at(args, *at as usize), scene, out)?;
    }
    Ok(())
}

fn add_named_at<C: CasePlaces>(
    alloc: Global,
    note: Option<&Note>,
    scene: &Scene<C>,
    out: &mut List<Pair>,
) -> Result<(), NoMemory>
    ensures { OnOk result (out.new ≡ out.old ++ spec.named_at C.place scene.now (option_copied note.entry)) }
{
    match note {
        None => Ok(()),
        Some(note) => add_condition(alloc, note.bound, &note.ck, scene, out),
    }
}

/// The clocks that stand for the variables of a signature, and the names that are given for those
/// of its parameters.
#[derive(Drop)]
struct Put<'a> {
    names: &'a [u32],
    by: &'a [ClockTerm],
}

/// The clock of what is left of a function after so many arguments.
fn rest(
    alloc: Global,
    put: &Put,
    scheme: &ClockScheme,
    params: &[ClockTerm],
    count: usize,
) -> Result<ClockTerm, NoMemory>
    ensures { IfOk result (λ r. r ≡ given.rest put.now.names.now put.now.by.now scheme.now params.now count) }
{
    let from = copy_past(alloc, params, count)?;
    let to = instance(alloc, &scheme.result, put.names, put.by)?;
    arrow(alloc, from, to)
}

/// The clock of a call is that of the result; that of a function which is no pointwise one, or
/// which holds a stream, is the arrow of what is left.
fn add_result(
    alloc: Global,
    put: &Put,
    scheme: &ClockScheme,
    params: &[ClockTerm],
    note: &Note,
    count: usize,
    holds: bool,
    out: &mut List<Pair>,
) -> Result<(), NoMemory>
    ensures { OnOk result (out.new ≡ out.old ++ given.result_pairs put.now.names.now put.now.by.now scheme.now params.now note.now count holds) }
{
    if is_function(&note.ty) {
        if is_comb(&note.ty) && !holds {
            return Ok(());
        }
        let ck = rest(alloc, put, scheme, params, count)?;
        return out.push((ck, note.ck.copy(alloc)?));
    }
    let ck = instance(alloc, &scheme.result, put.names, put.by)?;
    out.push((ck, note.ck.copy(alloc)?))
}

/// The call of a definition, or its bare use.
fn add_definition<C: CasePlaces>(
    alloc: Global,
    by: &[ClockTerm],
    note: &Note,
    args: &[Expr<Note>],
    holds: bool,
    scheme: &ClockScheme,
    scene: &Scene<C>,
    out: &mut List<Pair>,
) -> Result<(), NoMemory>
    ensures { OnOk result (out.new ≡ out.old ++ spec.definition_pairs C.place scene.now by.now note.now args.now holds (Some scheme.now)) }
{
    let names = given_names(alloc, args, scene)?;
    let put = Put {
        names: names.as_slice(),
        by,
    };
    let params = instances(alloc, scheme.clocks.as_slice(), put.names, by)?;
    add_meet(alloc, params.as_slice(), args, scene, out)?;
    add_named(alloc, args, scheme.names.as_slice(), scene, out)?;
    add_result(
        alloc,
        &put,
        scheme,
        params.as_slice(),
        note,
        args.len(),
        holds,
        out,
    )
}

fn add_maybe_definition<C: CasePlaces>(
    alloc: Global,
    by: &[ClockTerm],
    note: &Note,
    args: &[Expr<Note>],
    holds: bool,
    scheme: Option<&ClockScheme>,
    scene: &Scene<C>,
    out: &mut List<Pair>,
) -> Result<(), NoMemory>
    ensures { OnOk result (out.new ≡ out.old ++ spec.definition_pairs C.place scene.now by.now note.now args.now holds (option_copied scheme.entry)) }
{
    match scheme {
        None => Ok(()),
        Some(scheme) => add_definition(alloc, by, note, args, holds, scheme, scene, out),
    }
}

/// The clocks of arguments.
fn clocks_of(alloc: Global, args: &[Expr<Note>]) -> Result<List<ClockTerm>, NoMemory>
    ensures { IfOk result (λ r. r ≡ note_clocks (spec.notes_of args.now)) }
{
    let mut done = List::new(alloc);
    for e in args {
        done.push(e.note.ck.copy(alloc)?)?;
    }
    Ok(done)
}

/// A call of a parameter: a combinatorial one is pointwise, and a sequential one has one clock.
fn add_parameter<C: CasePlaces>(
    alloc: Global,
    run: bool,
    note: &Note,
    args: &[Expr<Note>],
    meant: Option<Meant>,
    scene: &Scene<C>,
    out: &mut List<Pair>,
) -> Result<(), NoMemory>
    ensures { OnOk result (out.new ≡ out.old ++ spec.parameter_pairs C.place scene.now run note.now args.now meant) }
{
    match meant {
        None => Ok(()),
        Some(meant) => {
            if run {
                let (ck, _) = meant;
                let from = clocks_of(alloc, args)?;
                let whole = arrow(alloc, from, note.ck.copy(alloc)?)?;
                out.push((ck, whole))
            } else {
                add_streams_on(alloc, &note.ck, args, scene, out)
            }
        }
    }
}

/// A call of what the name of this note means.
pub fn add_call<C: CasePlaces>(
    alloc: Global,
    by: &[ClockTerm],
    run: bool,
    note: &Note,
    args: &[Expr<Note>],
    holds: bool,
    scene: &Scene<C>,
    out: &mut List<Pair>,
) -> Result<(), NoMemory>
    ensures { OnOk result (out.new ≡ out.old ++ spec.call_pairs C.place scene.now by.now run note.now args.now holds note.now.bound) }
{
    match note.bound {
        Binder::Def(k) => {
            let scheme = nth(scene.schemes, k as usize);
            add_maybe_definition(alloc, by, note, args, holds, scheme, scene, out)
        }
        Binder::Param(_) => {
            let meant = scene.meaning(alloc, note.bound)?;
            add_parameter(alloc, run, note, args, meant, scene, out)
        }
        Binder::Var(_) => {
            let meant = scene.meaning(alloc, note.bound)?;
            add_parameter(alloc, run, note, args, meant, scene, out)
        }
        Binder::Nothing => Ok(()),
        Binder::Case(_, _) => Ok(()),
    }
}

/// A name where it stands bare.
pub fn add_name<C: CasePlaces>(
    alloc: Global,
    by: &[ClockTerm],
    note: &Note,
    place: &[Frame],
    scene: &Scene<C>,
    out: &mut List<Pair>,
) -> Result<(), NoMemory>
    ensures { OnOk result (out.new ≡ out.old ++ spec.name_pairs C.place scene.now by.now note.now place.now note.now.bound) }
{
    match note.bound {
        Binder::Def(k) => {
            let scheme = nth(scene.schemes, k as usize);
            add_maybe_definition(alloc, by, note, &[], false, scheme, scene, out)
        }
        Binder::Param(_) => add_used(alloc, note, place, scene, out),
        Binder::Var(_) => add_used(alloc, note, place, scene, out),
        Binder::Nothing => add_used(alloc, note, place, scene, out),
        Binder::Case(_, _) => add_used(alloc, note, place, scene, out),
    }
}
