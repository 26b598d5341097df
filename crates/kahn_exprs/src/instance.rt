//! The function that a call's head names, with the rows of its clock variables.

ghost use Rattle.std.specs.Prelude.{◌≡◌, ◌++◌, IfOk, OnOk, map};
ghost use Rattle.kahn_exprs.specs.Context as around;
ghost use Rattle.kahn_exprs.specs.Instance as own;
ghost use Rattle.ls_places.specs.Search as search;

use crate::body::Body;
use crate::context::Argument;
use crate::rows::on_row;
use crate::streams::look;
use kahn_cells::search::nth;
use ls_ast::Expr;
use ls_base::{List, NoMemory, NoteCopy};
use ls_places::Definition;
use ls_sig::{Binder, Note};
use ls_terms::ClockTerm;
use std::alloc::Global;

/// The rows of the clock variables of some clocks of a signature, where other clocks meet them.
#[cycle(met)]
fn add_all_met(
    alloc: Global,
    body: &Body,
    signature: &[ClockTerm],
    all: &[ClockTerm],
    done: &mut List<(u32, List<Option<bool>>)>,
) -> Result<(), NoMemory>
    ensures { OnOk result (done.new ≡ done.old ++ own.rows_met body.now (own.pairs_all (map own.pairs signature.now) all.now)) }
{
    let mut j = 0;
    for ck in signature {
        match nth(all, j) {
            None => return Ok(()),
            Some(t) => add_met(alloc, body, ck, t, done)?,
        }
        j += 1;
    }
    Ok(())
}

/// The same of a clock.
#[cycle(met)]
fn add_met(
    alloc: Global,
    body: &Body,
    signature: &ClockTerm,
    t: &ClockTerm,
    done: &mut List<(u32, List<Option<bool>>)>,
) -> Result<(), NoMemory>
    ensures { OnOk result (done.new ≡ done.old ++ own.rows_met body.now (own.pairs signature.now t.now)) }
{
    match signature {
        ClockTerm::Var(w) => done.push((*w, on_row(alloc, body, t)?)),
        ClockTerm::On(inner, _, _) => match t {
            ClockTerm::On(below, _, _) => add_met(alloc, body, inner.get(), below.get(), done),
            ClockTerm::Var(_) => Ok(()),
            ClockTerm::Pointwise => Ok(()),
            ClockTerm::Arrow(_, _) => Ok(()),
        },
        ClockTerm::Pointwise => Ok(()),
        ClockTerm::Arrow(params, to) => match t {
            ClockTerm::Arrow(others, result) => {
                add_all_met(alloc, body, params.as_slice(), others.as_slice(), done)?;
                add_met(alloc, body, to.get(), result.get(), done)
            }
            ClockTerm::Var(_) => Ok(()),
            ClockTerm::On(_, _, _) => Ok(()),
            ClockTerm::Pointwise => Ok(()),
        },
    }
}

/// Copies of some clocks after those that are there.
pub fn add_clocks(
    alloc: Global,
    all: &[ClockTerm],
    done: &mut List<ClockTerm>,
) -> Result<(), NoMemory>
    ensures { OnOk result (done.new ≡ done.old ++ all.now) }
{
    for ck in all {
        done.push(ck.copy(alloc)?)?;
    }
    Ok(())
}

/// The clocks noted at some expressions, in order.
pub fn clocks_noted(alloc: Global, all: &[Expr<Note>]) -> Result<List<ClockTerm>, NoMemory>
    ensures { IfOk result (λ r. r ≡ own.clocks_noted all.now) }
{
    let mut done = List::new(alloc);
    for e in all {
        done.push(e.note.ck.copy(alloc)?)?;
    }
    Ok(done)
}

/// The clocks of the signature of a definition: of its parameters, and of its result.
fn signature_of(alloc: Global, d: &Definition) -> Result<List<ClockTerm>, NoMemory>
    ensures { IfOk result (λ r. r ≡ own.signature_of d.now) }
{
    let mut done = List::new(alloc);
    add_clocks(alloc, d.clocks.as_slice(), &mut done)?;
    done.push(d.result.note.ck.copy(alloc)?)?;
    Ok(done)
}

/// The rows of the clock variables of a definition that is called or passed at these clocks.
fn instance(
    alloc: Global,
    body: &Body,
    k: u32,
    all: &[ClockTerm],
) -> Result<List<(u32, List<Option<bool>>)>, NoMemory>
    ensures { IfOk result (λ r. r ≡ own.instance body.now (search.nth body.now.defs.now k) all.now) }
{
    let mut done = List::new(alloc);
    match nth(body.defs, k as usize) {
        None => Ok(done),
        Some(d) => {
            let signature = signature_of(alloc, d.definition())?;
            add_all_met(alloc, body, signature.as_slice(), all, &mut done)?;
            Ok(done)
        }
    }
}

/// A definition that is called or passed at these clocks, the last of them its own.
fn function(
    alloc: Global,
    body: &Body,
    k: u32,
    clocks: List<ClockTerm>,
    ck: &ClockTerm,
) -> Result<Argument, NoMemory>
    ensures { IfOk result (λ r. r ≡ own.function body.now k clocks ck.now) }
{
    let mut all = clocks;
    match ck {
        ClockTerm::Pointwise => Ok(Argument::Pointwise(k)),
        ClockTerm::Arrow(more, to) => {
            add_clocks(alloc, more.as_slice(), &mut all)?;
            all.push(to.get().copy(alloc)?)?;
            Ok(Argument::Function(k, instance(alloc, body, k, all.as_slice())?))
        }
        ClockTerm::Var(_) => {
            all.push(ck.copy(alloc)?)?;
            Ok(Argument::Function(k, instance(alloc, body, k, all.as_slice())?))
        }
        ClockTerm::On(_, _, _) => {
            all.push(ck.copy(alloc)?)?;
            Ok(Argument::Function(k, instance(alloc, body, k, all.as_slice())?))
        }
    }
}

/// The function that a call's head names, or what stands for it.
pub fn head(
    alloc: Global,
    body: &Body,
    note: &Note,
    x: u32,
    clocks: List<ClockTerm>,
) -> Result<Argument, NoMemory>
    ensures { IfOk result (λ r. around.arg_of r ≡ own.head body.now note.now x clocks) }
{
    match note.bound {
        Binder::Def(k) => function(alloc, body, k, clocks, &note.ck),
        Binder::Var(k) => look(alloc, body, Binder::Var(k), x),
        Binder::Param(k) => look(alloc, body, Binder::Param(k), x),
        Binder::Nothing => look(alloc, body, Binder::Nothing, x),
        Binder::Case(t, k) => look(alloc, body, Binder::Case(t, k), x),
    }
}
