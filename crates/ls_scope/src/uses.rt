//! The notes of an expression: the binders of the names that it uses.

ghost use Rattle.std.specs.Prelude.{◌≡◌, [], ◌∷◌, ◌++◌, map, option_map, OnOk};
ghost use Rattle.scope_rules.specs.Claims as spec;
ghost use Rattle.ls_scope.specs.Uses.{uses_of_branches};

use crate::claims::Binders;
use ls_ast::{Case, Expr, Form};
use ls_base::{List, NoMemory};
use ls_sig::{Binder, Use};
use std::alloc::Global;

fn add_use(bound: Binder, done: &mut List<Use>) -> Result<(), NoMemory>
    ensures { OnOk result (done.new ≡ done.old ++ spec.use_of bound ∷ []) }
{
    done.push(Use { bound })
}

fn add_name<W: Binders>(
    alloc: Global,
    x: u32,
    what: &W,
    done: &mut List<Use>,
) -> Result<(), NoMemory>
    ensures { OnOk result (done.new ≡ done.old ++ spec.use_of (W.bound what.now x) ∷ []) }
{
    let bound = what.bound(alloc, x)?;
    add_use(bound, done)
}

#[cycle(uses)]
fn add_all<N, W: Binders>(
    alloc: Global,
    all: &[Expr<N>],
    what: &W,
    done: &mut List<Use>,
) -> Result<(), NoMemory>
    ensures { OnOk result (done.new ≡ done.old ++ spec.joined_uses (map (spec.uses (W.bound what.now) (W.cases what.now)) all.now)) }
{
    for e in all {
        add_uses(alloc, e, what, done)?;
    }
    Ok(())
}

#[cycle(uses)]
fn add_branches<N, W: Binders>(
    alloc: Global,
    all: &[(Case, Expr<N>)],
    what: &W,
    done: &mut List<Use>,
) -> Result<(), NoMemory>
    ensures { OnOk result (done.new ≡ done.old ++ uses_of_branches (W.bound what.now) (W.cases what.now) all.now) }
{
    for branch in all {
        add_uses(alloc, &branch.1, what, done)?;
    }
    Ok(())
}

#[cycle(uses)]
fn add_every<N, W: Binders>(
    alloc: Global,
    every: &Option<Expr<N>>,
    what: &W,
    done: &mut List<Use>,
) -> Result<(), NoMemory>
    ensures { OnOk result (done.new ≡ done.old ++ spec.option_uses (option_map (spec.uses (W.bound what.now) (W.cases what.now)) every.now)) }
{
    match every {
        None => Ok(()),
        Some(e) => add_uses(alloc, e, what, done),
    }
}

/// Adds the notes of an expression, the outermost first.
#[cycle(uses)]
pub fn add_uses<N, W: Binders>(
    alloc: Global,
    e: &Expr<N>,
    what: &W,
    done: &mut List<Use>,
) -> Result<(), NoMemory>
    ensures { OnOk result (done.new ≡ done.old ++ spec.uses (W.bound what.now) (W.cases what.now) e.now) }
{
    add_form(alloc, e.form.get(), what, done)
}

#[cycle(uses)]
fn add_form<N, W: Binders>(
    alloc: Global,
    form: &Form<N>,
    what: &W,
    done: &mut List<Use>,
) -> Result<(), NoMemory>
    ensures { OnOk result (done.new ≡ done.old ++ spec.uses_in (W.bound what.now) (W.cases what.now) form.now) }
{
    match form {
        Form::Leaf(_) => add_use(Binder::Nothing, done),
        Form::Case(c) => add_use(what.case(c.0), done),
        Form::Var(x) => add_name(alloc, x.0, what, done),
        Form::Last(x) => add_name(alloc, x.0, what, done),
        Form::Asked(x) => add_name(alloc, x.0, what, done),
        Form::Op(_, args) => {
            add_use(Binder::Nothing, done)?;
            add_all(alloc, args.as_slice(), what, done)
        }
        Form::Tuple(parts) => {
            add_use(Binder::Nothing, done)?;
            add_all(alloc, parts.as_slice(), what, done)
        }
        Form::Pre(e) => {
            add_use(Binder::Nothing, done)?;
            add_uses(alloc, e, what, done)
        }
        Form::Fby(a, b) => {
            add_use(Binder::Nothing, done)?;
            add_uses(alloc, a, what, done)?;
            add_uses(alloc, b, what, done)
        }
        Form::Init(a, b) => {
            add_use(Binder::Nothing, done)?;
            add_uses(alloc, a, what, done)?;
            add_uses(alloc, b, what, done)
        }
        Form::When(e, x, _) => {
            add_name(alloc, x.0, what, done)?;
            add_uses(alloc, e, what, done)
        }
        Form::Merge(x, branches) => {
            add_name(alloc, x.0, what, done)?;
            add_branches(alloc, branches.as_slice(), what, done)
        }
        Form::Call {
            run: _,
            head,
            args,
            every,
        } => {
            add_name(alloc, head.0, what, done)?;
            add_all(alloc, args.as_slice(), what, done)?;
            add_every(alloc, every, what, done)
        }
    }
}
