//! The sizes of the clocks at expressions.

ghost use Rattle.std.specs.Prelude.{◌≡◌, IfOk};
ghost use Rattle.clock_infer.specs.Nodes as spec;

use clock_conditions::is_small;
use ls_ast::{Case, Expr, Form};
use ls_base::{List, NoMemory};
use ls_places::Whole;
use ls_sig::Note;
use ls_terms::ClockTerm;
use std::alloc::Global;
use term_unify::{Subst, Term};

/// What is put for the variables of clocks.
pub type Put = Subst<ClockTerm>;

fn is_small_put(alloc: Global, ck: &ClockTerm, by: &Put) -> Result<bool, NoMemory>
    ensures { IfOk result (λ r. r ≡ spec.is_small by.now.list ck.now) }
{
    let put = ck.put(alloc, by)?;
    Ok(is_small(&put))
}

/// Whether the clocks in an expression are within the limit.
#[cycle(small)]
fn expr_is_small(alloc: Global, e: &Expr<Note>, by: &Put) -> Result<bool, NoMemory>
    ensures { IfOk result (λ r. r ≡ spec.smalls by.now.list e.now) }
{
    if !is_small_put(alloc, &e.note.ck, by)? {
        return Ok(false);
    }
    form_is_small(alloc, e.form.get(), by)
}

#[cycle(small)]
fn form_is_small(alloc: Global, form: &Form<Note>, by: &Put) -> Result<bool, NoMemory>
    ensures { IfOk result (λ r. r ≡ spec.all_small by.now.list (spec.parts form.now)) }
{
    match form {
        Form::Leaf(_) => Ok(true),
        Form::Case(_) => Ok(true),
        Form::Var(_) => Ok(true),
        Form::Last(_) => Ok(true),
        Form::Asked(_) => Ok(true),
        Form::Op(_, args) => exprs_are_small(alloc, args.as_slice(), by),
        Form::Tuple(all) => exprs_are_small(alloc, all.as_slice(), by),
        Form::Pre(e) => expr_is_small(alloc, e, by),
        Form::Fby(a, b) => {
            if !expr_is_small(alloc, a, by)? {
                return Ok(false);
            }
            expr_is_small(alloc, b, by)
        }
        Form::Init(a, b) => {
            if !expr_is_small(alloc, a, by)? {
                return Ok(false);
            }
            expr_is_small(alloc, b, by)
        }
        Form::When(e, _, _) => expr_is_small(alloc, e, by),
        Form::Merge(_, all) => branches_are_small(alloc, all.as_slice(), by),
        Form::Call { args, every, .. } => {
            if !exprs_are_small(alloc, args.as_slice(), by)? {
                return Ok(false);
            }
            maybe_is_small(alloc, every, by)
        }
    }
}

#[cycle(small)]
fn exprs_are_small(alloc: Global, all: &[Expr<Note>], by: &Put) -> Result<bool, NoMemory>
    ensures { IfOk result (λ r. r ≡ spec.all_small by.now.list all.now) }
{
    for e in all {
        if !expr_is_small(alloc, e, by)? {
            return Ok(false);
        }
    }
    Ok(true)
}

#[cycle(small)]
fn branches_are_small(alloc: Global, all: &[(Case, Expr<Note>)], by: &Put) -> Result<bool, NoMemory>
    ensures { IfOk result (λ r. r ≡ spec.all_small by.now.list (spec.branches all.now)) }
{
    for choice in all {
        if !expr_is_small(alloc, &choice.1, by)? {
            return Ok(false);
        }
    }
    Ok(true)
}

#[cycle(small)]
fn maybe_is_small(alloc: Global, e: &Option<Expr<Note>>, by: &Put) -> Result<bool, NoMemory>
    ensures { IfOk result (λ r. r ≡ spec.all_small by.now.list (spec.maybe e.now)) }
{
    match e {
        None => Ok(true),
        Some(e) => expr_is_small(alloc, e, by),
    }
}

/// Whether the clocks at all expressions are within the limit, with these terms for variables.
pub fn are_small(alloc: Global, all: &List<Whole<Note>>, by: &Put) -> Result<bool, NoMemory>
    ensures { IfOk result (λ r. r ≡ spec.nodes_small by.now.list all.now) }
{
    let wholes = all.as_slice();
    for whole in wholes {
        if !expr_is_small(alloc, &whole.expr, by)? {
            return Ok(false);
        }
    }
    Ok(true)
}
