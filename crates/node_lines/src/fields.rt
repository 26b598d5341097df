//! The form of the lines of a node.

ghost use Rattle.std.specs.Prelude.{◌≡◌, ◌+◌, ◌≤◌, ◌++◌, ◌∷◌, [], IfOk, OnOk, length, map, slice_get, Some};
ghost use Rattle.ls_sig.specs.Notes as notes;
ghost use Rattle.node_lines.specs.Form as spec;
ghost use Rattle.node_lines.specs.Starts as places;

use crate::shapes::input_leaves;
use line_io::{Field, InputForm};
use ls_ast::DefOf;
use ls_base::{List, Name, Names, NoMemory, NoteCopy};
use ls_sig::Sig;
use ls_terms::{ClockTerm, TypeTerm};
use ls_value::{Leaf, Shape};
use std::alloc::Global;

/// The number of the first field of each parameter.
pub(crate) fn starts(alloc: Global, params: &[TypeTerm]) -> Result<List<u32>, NoMemory>
    ensures { IfOk result (λ r. r ≡ places.starts params.now) }
{
    let mut done = List::new(alloc);
    let mut next: u32 = 0;
    for t in params {
        done.push(next)?;
        let width = input_leaves(alloc, t)?.len();
        next = behind(next, width)?;
    }
    Ok(done)
}

/// A number of fields that is so much greater. The fields of a form are no more than its list may
/// have.
fn behind(at: u32, width: usize) -> Result<u32, NoMemory>
    requires { width ≤ 4294967294 }
    ensures { IfOk result (λ r. r ≡ at + width) }
{
    match at.checked_add(width as u32) {
        Some(next) => Ok(next),
        None => Err(NoMemory),
    }
}

/// The leaf that is a case of a type.
fn case_leaf(t: &TypeTerm, k: u32) -> Leaf
    ensures { result ≡ spec.case_leaf t.now k }
{
    match t {
        TypeTerm::Bool => Leaf::Bool(k == 1),
        TypeTerm::Enum(e) => Leaf::Enum(*e, k),
        _ => Leaf::Nil,
    }
}

/// What sampling at a case of a parameter asks.
fn add_asked_of(
    params: &[TypeTerm],
    starts: &[u32],
    m: u32,
    k: u32,
    done: &mut List<(u32, Leaf)>,
) -> Result<(), NoMemory>
    requires { starts.now ≡ places.starts params.now }
    ensures { OnOk result (done.new ≡ done.old ++ spec.asked_of params.now m k (slice_get params.now m)) }
{
    match params.get(m as usize) {
        None => Ok(()),
        Some(t) => match starts.get(m as usize) {
            None => Ok(()),
            Some(at) => done.push((*at, case_leaf(t, k))),
        },
    }
}

fn add_asked(
    params: &[TypeTerm],
    starts: &[u32],
    ck: &ClockTerm,
    done: &mut List<(u32, Leaf)>,
) -> Result<(), NoMemory>
    requires { starts.now ≡ places.starts params.now }
    ensures { OnOk result (done.new ≡ done.old ++ spec.asked params.now ck.now) }
{
    match ck {
        ClockTerm::On(of, m, k) => {
            add_asked(params, starts, of.get(), done)?;
            add_asked_of(params, starts, *m, *k, done)
        }
        ClockTerm::Var(_) => Ok(()),
        ClockTerm::Pointwise => Ok(()),
        ClockTerm::Arrow(_, _) => Ok(()),
    }
}

/// The fields that a clock asks, with the leaves that they must hold.
pub(crate) fn asked(
    alloc: Global,
    params: &[TypeTerm],
    starts: &[u32],
    ck: &ClockTerm,
) -> Result<List<(u32, Leaf)>, NoMemory>
    requires { starts.now ≡ places.starts params.now }
    ensures { IfOk result (λ r. r ≡ spec.asked params.now ck.now) }
{
    let mut done = List::new(alloc);
    add_asked(params, starts, ck, &mut done)?;
    Ok(done)
}

fn copy_asked(alloc: Global, on: &[(u32, Leaf)]) -> Result<List<(u32, Leaf)>, NoMemory>
    ensures { IfOk result (λ r. r ≡ on.now) }
{
    let mut done = List::new(alloc);
    for (at, leaf) in on {
        done.push((*at, *leaf))?;
    }
    Ok(done)
}

fn is_signal(t: &TypeTerm) -> bool
    ensures { result ≡ notes.is_signal t.now }
{
    matches!(t, TypeTerm::Signal(_))
}

/// The number of a parameter among those that are signals, where it is one.
fn signal_number(t: &TypeTerm, before: u32) -> Option<u32>
    ensures { result ≡ spec.signal_number t.now before }
{
    if is_signal(t) { Some(before) } else { None }
}

/// The number of signals up to a parameter.
fn signals_with(t: &TypeTerm, before: u32) -> Result<u32, NoMemory>
    ensures { IfOk result (λ r. r ≡ spec.signals_with t.now before) }
{
    if !is_signal(t) {
        return Ok(before);
    }
    match before.checked_add(1) {
        Some(next) => Ok(next),
        None => Err(NoMemory),
    }
}

fn add_fields(
    alloc: Global,
    shapes: &[Shape],
    on: &[(u32, Leaf)],
    signal: Option<u32>,
    done: &mut List<Field>,
) -> Result<(), NoMemory>
    ensures { OnOk result (done.new ≡ done.old ++ map (spec.field on.now signal) shapes.now) }
{
    for shape in shapes {
        let on = copy_asked(alloc, on)?;
        done.push(Field {
            shape: *shape,
            on,
            signal,
        })?;
    }
    Ok(())
}

/// The fields of a parameter.
fn add_param(
    alloc: Global,
    params: &[TypeTerm],
    starts: &[u32],
    t: &TypeTerm,
    ck: &ClockTerm,
    before: u32,
    done: &mut List<Field>,
) -> Result<(), NoMemory>
    requires { starts.now ≡ places.starts params.now }
    ensures { OnOk result (done.new ≡ done.old ++ spec.fields_of params.now t.now ck.now before) }
{
    let on = asked(alloc, params, starts, ck)?;
    let shapes = input_leaves(alloc, t)?;
    let signal = signal_number(t, before);
    add_fields(alloc, shapes.as_slice(), on.as_slice(), signal, done)
}

/// The fields of the parameters, in order.
fn fields(alloc: Global, params: &[TypeTerm], clocks: &[ClockTerm]) -> Result<List<Field>, NoMemory>
    ensures { IfOk result (λ r. r ≡ spec.fields params.now clocks.now) }
{
    let starts = starts(alloc, params)?;
    let mut done = List::new(alloc);
    let mut before = 0;
    let mut rest = clocks;
    for t in params {
        match rest {
            [] => return Ok(done),
            [ck, more @ ..] => {
                add_param(alloc, params, starts.as_slice(), t, ck, before, &mut done)?;
                before = signals_with(t, before)?;
                rest = more;
            }
        }
    }
    Ok(done)
}

fn add_constructors<N>(
    alloc: Global,
    item: &DefOf<N>,
    done: &mut List<List<Name>>,
) -> Result<(), NoMemory>
    ensures { OnOk result (done.new ≡ done.old ++ spec.constructors (item.now ∷ [])) }
{
    match item {
        DefOf::Cases { cases, .. } => done.push(cases.copy(alloc)?),
        DefOf::Let { .. } => Ok(()),
    }
}

/// The constructors of the enumerations of a file, in order.
#[tactic(auto, using(crate::proofs::Lists::first_item))]
pub fn constructors<N>(alloc: Global, file: &[DefOf<N>]) -> Result<List<List<Name>>, NoMemory>
    ensures { IfOk result (λ r. r ≡ spec.constructors file.now) }
{
    let mut done = List::new(alloc);
    for item in file {
        add_constructors(alloc, item, &mut done)?;
    }
    Ok(done)
}

/// The form of the lines of a node of this signature, in a file with these constructors and names.
pub fn form(
    alloc: Global,
    cases: List<List<Name>>,
    names: &Names,
    sig: &Sig,
) -> Result<InputForm, NoMemory>
    ensures { IfOk result (λ r. r ≡ spec.form cases names.now sig.now) }
{
    Ok(InputForm {
        fields: fields(alloc, sig.params.as_slice(), sig.clocks.as_slice())?,
        cases,
        names: names.copy(alloc)?,
    })
}
