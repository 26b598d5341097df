//! Clock terms: what occurs in them, and those that are noted in an expression.

ghost use Rattle.std.specs.Prelude.{◌≡◌, ◌++◌, IfOk, OnOk, map};
ghost use Rattle.block_tables.specs.Blocks as own;
ghost use Rattle.ls_places.specs.Clocks as spec;
ghost use Rattle.ls_places.specs.Patterns.{joined};
ghost use Rattle.ls_terms.specs.declared.clocks.ClockTerm.{out-ClockTerm};

use ls_ast::{Case, Expr, Form};
use ls_base::{List, NoMemory, NoteCopy};
use ls_sig::Note;
use ls_terms::ClockTerm;
use std::alloc::Global;

fn inner(ck: &ClockTerm) -> &ClockTerm
    ensures { result.now ≡ spec.bare_step ck.now (out-ClockTerm ck.now) }
{
    match ck {
        ClockTerm::On(inner, _, _) => inner.get(),
        ClockTerm::Var(_) => ck,
        ClockTerm::Pointwise => ck,
        ClockTerm::Arrow(_, _) => ck,
    }
}

/// A clock without its outermost samplings, `n` of them.
pub fn bare(n: usize, ck: &ClockTerm) -> &ClockTerm
    ensures { result.now ≡ spec.bare n ck.now }
{
    let mut rest = ck;
    for _i in 0..n {
        rest = inner(rest);
    }
    rest
}

#[cycle(clocks)]
fn add_forms(alloc: Global, form: &Form<Note>, done: &mut List<ClockTerm>) -> Result<(), NoMemory>
    ensures { OnOk result (done.new ≡ done.old ++ own.clocks_of form.now) }
{
    match form {
        Form::Leaf(_) => Ok(()),
        Form::Case(_) => Ok(()),
        Form::Var(_) => Ok(()),
        Form::Last(_) => Ok(()),
        Form::Asked(_) => Ok(()),
        Form::Op(_, args) => add_all_clocks(alloc, args.as_slice(), done),
        Form::Tuple(all) => add_all_clocks(alloc, all.as_slice(), done),
        Form::Pre(e) => add_clocks(alloc, e, done),
        Form::Fby(a, b) => {
            add_clocks(alloc, a, done)?;
            add_clocks(alloc, b, done)
        }
        Form::Init(a, b) => {
            add_clocks(alloc, a, done)?;
            add_clocks(alloc, b, done)
        }
        Form::When(e, _, _) => add_clocks(alloc, e, done),
        Form::Merge(_, choices) => add_choice_clocks(alloc, choices.as_slice(), done),
        Form::Call { args, every, .. } => {
            add_all_clocks(alloc, args.as_slice(), done)?;
            match every {
                None => Ok(()),
                Some(e) => add_clocks(alloc, e, done),
            }
        }
    }
}

#[cycle(clocks)]
fn add_all_clocks(
    alloc: Global,
    all: &[Expr<Note>],
    done: &mut List<ClockTerm>,
) -> Result<(), NoMemory>
    ensures { OnOk result (done.new ≡ done.old ++ joined (map spec.clocks_in all.now)) }
{
    for e in all {
        add_clocks(alloc, e, done)?;
    }
    Ok(())
}

#[cycle(clocks)]
fn add_choice_clocks(
    alloc: Global,
    all: &[(Case, Expr<Note>)],
    done: &mut List<ClockTerm>,
) -> Result<(), NoMemory>
    ensures { OnOk result (done.new ≡ done.old ++ joined (spec.choice_parts (own.choices_clocks all.now))) }
{
    for choice in all {
        add_clocks(alloc, &choice.1, done)?;
    }
    Ok(())
}

#[cycle(clocks)]
fn add_clocks(alloc: Global, e: &Expr<Note>, done: &mut List<ClockTerm>) -> Result<(), NoMemory>
    ensures { OnOk result (done.new ≡ done.old ++ spec.clocks_in e.now) }
{
    done.push(e.note.ck.copy(alloc)?)?;
    add_forms(alloc, e.form.get(), done)
}

/// The clocks noted in an expression.
pub fn clocks_in(alloc: Global, e: &Expr<Note>) -> Result<List<ClockTerm>, NoMemory>
    ensures { IfOk result (λ r. r ≡ spec.clocks_in e.now) }
{
    let mut done = List::new(alloc);
    add_clocks(alloc, e, &mut done)?;
    Ok(done)
}
