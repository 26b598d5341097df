//! What a definition asks.

ghost use Rattle.std.specs.Prelude.{◌≡◌, ◌+◌, ◌++◌, map, length, OnOk, IfOk};
ghost use Rattle.ls_places.specs.Patterns.{joined, names_of};
ghost use Rattle.type_readings.specs.Given as scene;
ghost use Rattle.type_demands.specs.Walks as spec;
ghost use Rattle.type_rules.specs.Bodies as bodies;
ghost use Rattle.type_rules.specs.Definitions as definitions;

use crate::around::at_top;
use crate::bodies::{Asking, ask_equations};
use crate::patterns::{Named, alone, scheme};
use ls_ast::{BodyOf, Mark, Pat};
use ls_base::{List, NoMemory};
use ls_sig::Binder;
use ls_terms::TypeTerm;
use std::alloc::Global;
use type_readings::{
    CaseTypes, Fit, Given, Placed, Stand, any, any_signal, ask_expr, fits_one, never,
};
use type_rules::Demand;

/// A name has a type of data, and a signal the type of one; that of a function is for its uses to
/// tell.
fn ask_name<C: CaseTypes>(
    alloc: Global,
    mark: Mark,
    place: u32,
    given: &Given<C>,
    out: &mut List<Demand<u32>>,
) -> Result<(), NoMemory>
    ensures { OnOk result (out.new ≡ out.old ++ spec.name_asks C.case_type given.now mark place) }
{
    match mark {
        Mark::Comb => Ok(()),
        Mark::Seq => Ok(()),
        Mark::Signal => {
            let signal = any_signal(alloc)?;
            fits_one(alloc, place, signal, out)
        }
        Mark::Data => fits_one(alloc, place, any(), out),
        Mark::Clock => fits_one(alloc, place, any(), out),
        Mark::Unknown => fits_one(alloc, place, any(), out),
    }
}

/// The names of the parameters.
fn ask_params_named<C: CaseTypes>(
    alloc: Global,
    given: &Given<C>,
    out: &mut List<Demand<u32>>,
) -> Result<(), NoMemory>
    requires { scene.fits given.now }
    ensures { OnOk result (out.new ≡ out.old ++ spec.params_named C.case_type given.now given.now.params.now 0) }
{
    for k in 0..given.params.len() {
        ask_name(alloc, given.mark(k as u32), k as u32, given, out)?;
    }
    Ok(())
}

/// The variables.
fn ask_vars_named<C: CaseTypes>(
    alloc: Global,
    given: &Given<C>,
    out: &mut List<Demand<u32>>,
) -> Result<(), NoMemory>
    requires { scene.fits given.now }
    ensures { OnOk result (out.new ≡ out.old ++ spec.vars_named C.case_type given.now given.now.vars.now (length given.now.params.now)) }
{
    let first = given.params.len();
    for k in 0..given.vars.len() {
        let mark = if given.is_signal(k as u32) {
            Mark::Signal
        } else {
            Mark::Data
        };
        ask_name(alloc, mark, (first + k) as u32, given, out)?;
    }
    Ok(())
}

/// Adds the names of a pattern, which are the parameters from k on.
fn add_own<C: CaseTypes>(
    k: u32,
    names: &[Named],
    given: &Given<C>,
    list: &mut List<Fit>,
) -> Result<(), NoMemory>
    requires { scene.fits given.now }
    ensures { OnOk result (list.new ≡ list.old ++ spec.own_parts C.case_type given.now k names.now) }
{
    let mut at = k;
    for named in names {
        let own = given.place(Binder::Param(at));
        add_fit(own, named.1, list)?;
        at = after(at)?;
    }
    Ok(())
}

/// Adds a place with a variable, where there is one.
fn add_fit(place: Option<u32>, variable: u32, list: &mut List<Fit>) -> Result<(), NoMemory>
    ensures { OnOk result (list.new ≡ list.old ++ bodies.fit_of place variable) }
{
    match place {
        None => Ok(()),
        Some(place) => list.push((place, TypeTerm::Var(variable))),
    }
}

fn ask_own_missing<C: CaseTypes>(
    k: u32,
    names: &[Named],
    given: &Given<C>,
    out: &mut List<Demand<u32>>,
) -> Result<(), NoMemory>
    requires { scene.fits given.now }
    ensures { OnOk result (out.new ≡ out.old ++ spec.own_missing C.case_type given.now k names.now) }
{
    let mut at = k;
    for named in names {
        prove!(named.1 == named.1);
        if given.place(Binder::Param(at)).is_none() {
            never(out)?;
        }
        at = after(at)?;
    }
    Ok(())
}

fn after(k: u32) -> Result<u32, NoMemory>
    ensures { IfOk result (λ r. r ≡ k + 1) }
{
    match k.checked_add(1) {
        Some(next) => Ok(next),
        None => Err(NoMemory),
    }
}

/// A parameter that is a function or a signal is one name, of the type of its note.
fn ask_alone<C: CaseTypes>(
    alloc: Global,
    signal: bool,
    place: u32,
    k: u32,
    name: Option<u32>,
    given: &Given<C>,
    out: &mut List<Demand<u32>>,
) -> Result<(), NoMemory>
    requires { scene.fits given.now }
    ensures { OnOk result (out.new ≡ out.old ++ spec.alone_asks C.case_type given.now signal place k name) }
{
    match name {
        None => never(out),
        Some(_) => {
            if signal {
                let scheme = any_signal(alloc)?;
                fits_one(alloc, place, scheme, out)?;
            }
            match given.place(Binder::Param(k)) {
                None => never(out),
                Some(name) => out.push(Demand::Equal(name, place)),
            }
        }
    }
}

/// A parameter of data: its names have the parts of its type.
fn ask_data<C: CaseTypes>(
    alloc: Global,
    place: u32,
    k: u32,
    whole: TypeTerm,
    names: &[Named],
    given: &Given<C>,
    out: &mut List<Demand<u32>>,
) -> Result<(), NoMemory>
    requires { scene.fits given.now }
    ensures { OnOk result (out.new ≡ out.old ++ spec.data_asks C.case_type given.now place k whole names.now) }
{
    let mut list = List::new(alloc);
    list.push((place, whole))?;
    add_own(k, names, given, &mut list)?;
    out.push(Demand::Fits(list))?;
    ask_own_missing(k, names, given, out)
}

/// A parameter whose first name has the number k. Answers how many names it has.
fn ask_param<C: CaseTypes>(
    alloc: Global,
    mark: Mark,
    place: u32,
    k: u32,
    pat: &Pat,
    given: &Given<C>,
    out: &mut List<Demand<u32>>,
) -> Result<u32, NoMemory>
    requires { scene.fits given.now }
    ensures next { IfOk result (λ r. r ≡ k + length ((bodies.shape_of pat.now).names 0)) }
    ensures out { OnOk result (out.new ≡ out.old ++ spec.param_asks C.case_type given.now mark place k (bodies.shape_of pat.now)) }
{
    let mut names = List::new(alloc);
    let mut next = 0;
    let whole = scheme(alloc, pat, &mut next, &mut names)?;
    match mark {
        Mark::Comb => ask_alone(alloc, false, place, k, alone(pat), given, out)?,
        Mark::Seq => ask_alone(alloc, false, place, k, alone(pat), given, out)?,
        Mark::Signal => ask_alone(alloc, true, place, k, alone(pat), given, out)?,
        Mark::Data => ask_data(alloc, place, k, whole, names.as_slice(), given, out)?,
        Mark::Clock => ask_data(alloc, place, k, whole, names.as_slice(), given, out)?,
        Mark::Unknown => ask_data(alloc, place, k, whole, names.as_slice(), given, out)?,
    }
    match k.checked_add(names.len() as u32) {
        Some(next) => Ok(next),
        None => Err(NoMemory),
    }
}

/// The parameters. There is a mark and a note for each.
fn ask_params<C: CaseTypes>(
    alloc: Global,
    params: &[Pat],
    marks: &[Mark],
    notes: &[Placed],
    given: &Given<C>,
    out: &mut List<Demand<u32>>,
) -> Result<(), NoMemory>
    requires { scene.fits given.now }
    ensures { OnOk result (out.new ≡ out.old ++ spec.params_ask C.case_type given.now params.now marks.now notes.now 0) }
{
    let mut k = 0;
    for (at, pat) in params.iter().enumerate() {
        match (marks.get(at), notes.get(at)) {
            (Some(mark), Some(note)) => {
                k = ask_param(alloc, *mark, note.1, k, pat, given, out)?;
            }
            _ => return never(out),
        }
    }
    if marks.len() > params.len() || notes.len() > params.len() {
        return never(out);
    }
    Ok(())
}

/// What the body asks, whose first clock name has a number.
fn ask_body<C: CaseTypes>(
    alloc: Global,
    first: u32,
    body: &BodyOf<Placed>,
    given: &Given<C>,
    out: List<Demand<u32>>,
) -> Result<List<Demand<u32>>, NoMemory>
    requires { scene.fits given.now }
    ensures { IfOk result (λ r. r ≡ out ++ spec.body_asks C.case_type given.now first body.now) }
{
    let mut asking = Asking { out, next: first };
    ask_expr(alloc, &body.result, Stand::Body, given, &mut asking.out)?;
    ask_equations(
        alloc,
        body.eqs.as_slice(),
        &at_top(alloc),
        given,
        &mut asking,
    )?;
    let Asking { out, .. } = asking;
    Ok(out)
}

/// What a definition asks of the types of its places: those of the names of its parameters and of
/// its variables, which come first, and those of its notes. `given` has the names of the
/// parameters, with the mark of each.
pub fn demands_of<C: CaseTypes>(
    alloc: Global,
    params: &List<Pat>,
    marks: &[Mark],
    notes: &[Placed],
    body: &BodyOf<Placed>,
    given: &Given<C>,
) -> Result<List<Demand<u32>>, NoMemory>
    requires fits { scene.fits given.now }
    requires names { given.now.params.now ≡ definitions.param_names params.now }
    requires marks { given.now.marks.now ≡ definitions.name_marks params.now marks.now }
    ensures { IfOk result (λ r. r ≡ spec.definition_asks C.case_type given.now (record { params = params.now; marks = marks.now; notes = notes.now; body = body.now })) }
{
    let mut out = List::new(alloc);
    ask_params_named(alloc, given, &mut out)?;
    ask_vars_named(alloc, given, &mut out)?;
    ask_params(alloc, params.as_slice(), marks, notes, given, &mut out)?;
    ask_body(alloc, params.len() as u32, body, given, out)
}

/// Adds the names of a pattern.
#[cycle(add_names)]
fn add_names(pat: &Pat, list: &mut List<u32>) -> Result<(), NoMemory>
    ensures { OnOk result (list.new ≡ list.old ++ names_of pat.now) }
{
    match pat {
        Pat::Any => Ok(()),
        Pat::Unit => Ok(()),
        Pat::Var(name) => list.push(name.0),
        Pat::Tuple(parts) => add_all_names(parts.as_slice(), list),
    }
}

#[cycle(add_names)]
fn add_all_names(all: &[Pat], list: &mut List<u32>) -> Result<(), NoMemory>
    ensures { OnOk result (list.new ≡ list.old ++ joined (map names_of all.now)) }
{
    for pat in all {
        add_names(pat, list)?;
    }
    Ok(())
}

/// The names of parameters, in order.
pub fn param_names(alloc: Global, params: &[Pat]) -> Result<List<u32>, NoMemory>
    ensures { IfOk result (λ r. r ≡ definitions.param_names params.now) }
{
    let mut list = List::new(alloc);
    add_all_names(params, &mut list)?;
    Ok(list)
}

/// The mark of each name of the parameters.
pub fn name_marks(alloc: Global, params: &[Pat], marks: &[Mark]) -> Result<List<Mark>, NoMemory>
    ensures { IfOk result (λ r. r ≡ definitions.name_marks params.now marks.now) }
{
    let mut list = List::new(alloc);
    for (at, pat) in params.iter().enumerate() {
        match marks.get(at) {
            Some(mark) => add_pattern_marks(alloc, pat, *mark, &mut list)?,
            None => return Ok(list),
        }
    }
    Ok(list)
}

fn add_pattern_marks(
    alloc: Global,
    pat: &Pat,
    mark: Mark,
    list: &mut List<Mark>,
) -> Result<(), NoMemory>
    ensures { OnOk result (list.new ≡ list.old ++ definitions.same_marks mark (names_of pat.now)) }
{
    let mut names = List::new(alloc);
    add_names(pat, &mut names)?;
    add_marks(mark, names.as_slice(), list)
}

fn add_marks(mark: Mark, names: &[u32], list: &mut List<Mark>) -> Result<(), NoMemory>
    ensures { OnOk result (list.new ≡ list.old ++ definitions.same_marks mark names.now) }
{
    for name in names {
        prove!(*name == *name);
        list.push(mark)?;
    }
    Ok(())
}
