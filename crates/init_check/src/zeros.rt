//! What has to be 0 in an expression.

ghost use Rattle.std.specs.Prelude.{◌≡◌, ◌++◌, OnOk};
ghost use Rattle.std.specs.Option.{option_copied};
ghost use Rattle.init_check.specs.Walks as own;
ghost use Rattle.init_rules.specs.Bits as bits;
ghost use Rattle.init_rules.specs.Flow as flow;
ghost use Rattle.ls_places.specs.Search.{nth as sig_at};

use crate::nodes::{add_last_zeros, add_name, is_function};
use crate::sources::{
    add_all_sources, add_call_sources, add_choice_sources, add_chosen_sources, add_own, add_sources,
};
use ls_ast::{Case, Expr, Form};
use ls_base::{List, NoMemory};
use ls_places::Frame;
use ls_sig::{Binder, InitSig, Note};
use place_tables::{Tables, nth};

fn add_own_of(sigs: &[InitSig], k: u32, out: &mut List<u32>) -> Result<(), NoMemory>
    ensures { OnOk result (out.new ≡ out.old ++ own.if_one (bits.own_of (sig_at sigs.now k))) }
{
    match nth(sigs, k as usize) {
        None => Ok(()),
        Some(sig) => add_own(sig, out),
    }
}

// 1, where a function has the result 1 by itself.
fn add_owns(
    d: &Tables,
    sigs: &[InitSig],
    bound: Binder,
    out: &mut List<u32>,
) -> Result<(), NoMemory>
    ensures { OnOk result (out.new ≡ out.old ++ own.if_one (flow.owns d.now sigs.now bound)) }
{
    match bound {
        Binder::Def(k) => add_own_of(sigs, k, out),
        Binder::Var(_) => Ok(()),
        Binder::Param(_) => Ok(()),
        Binder::Nothing => Ok(()),
        Binder::Case(_, _) => Ok(()),
    }
}

// A name: a definition that is given on as a function must not have the result 1 by itself.
fn add_used(
    d: &Tables,
    sigs: &[InitSig],
    note: &Note,
    x: u32,
    out: &mut List<u32>,
) -> Result<(), NoMemory>
    ensures { OnOk result (out.new ≡ out.old ++ own.used_zeros d.now sigs.now note.now x) }
{
    match note.bound {
        Binder::Def(k) => {
            if is_function(note) {
                add_own_of(sigs, k, out)
            } else {
                Ok(())
            }
        }
        Binder::Var(_) => Ok(()),
        Binder::Param(_) => Ok(()),
        Binder::Nothing => Ok(()),
        Binder::Case(_, _) => Ok(()),
    }
}

#[cycle(zeros)]
fn add_all_zeros(
    d: &Tables,
    sigs: &[InitSig],
    place: &[Frame],
    all: &[Expr<Note>],
    out: &mut List<u32>,
) -> Result<(), NoMemory>
    requires { own.fits d.now }
    ensures { OnOk result (out.new ≡ out.old ++ own.all_zeros d.now sigs.now place.now all.now) }
{
    for e in all {
        add_zeros(d, sigs, place, e, out)?;
    }
    Ok(())
}

#[cycle(zeros)]
fn add_choice_zeros(
    d: &Tables,
    sigs: &[InitSig],
    place: &[Frame],
    all: &[(Case, Expr<Note>)],
    out: &mut List<u32>,
) -> Result<(), NoMemory>
    requires { own.fits d.now }
    ensures { OnOk result (out.new ≡ out.old ++ own.choice_zeros d.now sigs.now place.now all.now) }
{
    for choice in all {
        add_zeros(d, sigs, place, &choice.1, out)?;
    }
    Ok(())
}

// The arguments that a definition's signature does not allow to be 1.
fn add_barred(
    d: &Tables,
    sigs: &[InitSig],
    place: &[Frame],
    sig: Option<&InitSig>,
    args: &[Expr<Note>],
    out: &mut List<u32>,
) -> Result<(), NoMemory>
    requires { own.fits d.now }
    ensures { OnOk result (out.new ≡ out.old ++ own.barred_nodes d.now sigs.now place.now (option_copied sig.entry) args.now) }
{
    match sig {
        None => add_all_sources(d, sigs, place, args, out),
        Some(sig) => add_chosen_sources(d, sigs, place, sig.may.as_slice(), false, args, out),
    }
}

// What a call asks of its arguments.
fn add_asked(
    d: &Tables,
    sigs: &[InitSig],
    place: &[Frame],
    run: bool,
    bound: Binder,
    args: &[Expr<Note>],
    out: &mut List<u32>,
) -> Result<(), NoMemory>
    requires { own.fits d.now }
    ensures { OnOk result (out.new ≡ out.old ++ own.asked_nodes d.now sigs.now place.now run bound args.now) }
{
    match bound {
        Binder::Def(k) => add_barred(d, sigs, place, nth(sigs, k as usize), args, out),
        Binder::Var(_) => add_run(d, sigs, place, run, args, out),
        Binder::Param(_) => add_run(d, sigs, place, run, args, out),
        Binder::Nothing => add_run(d, sigs, place, run, args, out),
        Binder::Case(_, _) => add_run(d, sigs, place, run, args, out),
    }
}

fn add_run(
    d: &Tables,
    sigs: &[InitSig],
    place: &[Frame],
    run: bool,
    args: &[Expr<Note>],
    out: &mut List<u32>,
) -> Result<(), NoMemory>
    requires { own.fits d.now }
    ensures { OnOk result (out.new ≡ out.old ++ own.if_nodes run (own.all_sources d.now sigs.now place.now args.now)) }
{
    if run {
        add_all_sources(d, sigs, place, args, out)
    } else {
        Ok(())
    }
}

// What a call, or a function that is given some of its arguments, asks of them.
fn add_call_asked(
    d: &Tables,
    sigs: &[InitSig],
    place: &[Frame],
    run: bool,
    note: &Note,
    args: &[Expr<Note>],
    out: &mut List<u32>,
) -> Result<(), NoMemory>
    requires { own.fits d.now }
    ensures { OnOk result (out.new ≡ out.old ++ own.call_asked d.now sigs.now place.now run note.now args.now) }
{
    if is_function(note) {
        add_owns(d, sigs, note.bound, out)?;
        add_all_sources(d, sigs, place, args, out)
    } else {
        add_asked(d, sigs, place, run, note.bound, args, out)
    }
}

#[cycle(zeros)]
fn add_form(
    d: &Tables,
    sigs: &[InitSig],
    place: &[Frame],
    form: &Form<Note>,
    note: &Note,
    out: &mut List<u32>,
) -> Result<(), NoMemory>
    requires { own.fits d.now }
    ensures { OnOk result (out.new ≡ out.old ++ own.form_zeros d.now sigs.now place.now form.now note.now) }
{
    match form {
        Form::Leaf(_) => Ok(()),
        Form::Case(_) => Ok(()),
        Form::Var(x) => add_used(d, sigs, note, x.0, out),
        Form::Last(_) => add_last_zeros(d, place, note.bound, out),
        Form::Asked(_) => Ok(()),
        Form::Op(_, args) => add_all_zeros(d, sigs, place, args.as_slice(), out),
        Form::Tuple(all) => add_all_zeros(d, sigs, place, all.as_slice(), out),
        Form::Pre(e) => {
            add_sources(d, sigs, place, e, out)?;
            add_zeros(d, sigs, place, e, out)
        }
        Form::Fby(a, b) => {
            add_sources(d, sigs, place, b, out)?;
            add_zeros(d, sigs, place, a, out)?;
            add_zeros(d, sigs, place, b, out)
        }
        Form::Init(a, b) => {
            add_zeros(d, sigs, place, a, out)?;
            add_zeros(d, sigs, place, b, out)
        }
        Form::When(e, x, _) => {
            add_name(d, note.bound, x.0, out)?;
            add_zeros(d, sigs, place, e, out)
        }
        Form::Merge(x, choices) => {
            add_name(d, note.bound, x.0, out)?;
            add_choice_sources(d, sigs, place, choices.as_slice(), out)?;
            add_choice_zeros(d, sigs, place, choices.as_slice(), out)
        }
        Form::Call {
            run,
            args,
            every,
            ..
        } => {
            add_call_asked(d, sigs, place, *run, note, args.as_slice(), out)?;
            add_all_zeros(d, sigs, place, args.as_slice(), out)?;
            match every {
                None => Ok(()),
                Some(e) => {
                    add_zeros(d, sigs, place, e, out)?;
                    add_sources(d, sigs, place, e, out)?;
                    add_call_sources(d, sigs, place, *run, note, args.as_slice(), out)
                }
            }
        }
    }
}

/// What has to be 0 in an expression at a place.
#[cycle(zeros)]
pub fn add_zeros(
    d: &Tables,
    sigs: &[InitSig],
    place: &[Frame],
    e: &Expr<Note>,
    out: &mut List<u32>,
) -> Result<(), NoMemory>
    requires { own.fits d.now }
    ensures { OnOk result (out.new ≡ out.old ++ own.zeros d.now sigs.now place.now e.now) }
{
    add_form(d, sigs, place, e.form.get(), &e.note, out)
}
