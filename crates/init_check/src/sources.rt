//! What feeds an expression.

ghost use Rattle.std.specs.Prelude.{◌≡◌, ◌++◌, OnOk};
ghost use Rattle.std.specs.Option.{option_copied};
ghost use Rattle.init_check.specs.Walks as own;
ghost use Rattle.ls_places.specs.Search.{nth as bit_at};

use crate::nodes::{ALWAYS, add_last, add_name, is_function};
use ls_ast::{Case, Expr, Form};
use ls_base::{List, NoMemory};
use ls_places::Frame;
use ls_sig::{Binder, InitSig, Note};
use place_tables::{Tables, nth};

// Whether the bit of an argument is 1, or 0, as is wanted.
fn is_chosen(bits: &[bool], want: bool, i: usize) -> bool
    ensures { result ≡ own.told want (bit_at bits.now i) }
{
    match nth(bits, i) {
        None => !want,
        Some(bit) => { if want { *bit } else { !*bit } }
    }
}

/// 1 where the result of a definition is 1 whatever its arguments are.
pub fn add_own(sig: &InitSig, out: &mut List<u32>) -> Result<(), NoMemory>
    ensures { OnOk result (out.new ≡ out.old ++ own.if_one sig.now.own) }
{
    if sig.own { out.push(ALWAYS) } else { Ok(()) }
}

// A name: a definition that has no parameters, or a stream.
fn add_used(
    d: &Tables,
    sigs: &[InitSig],
    note: &Note,
    x: u32,
    out: &mut List<u32>,
) -> Result<(), NoMemory>
    requires { own.fits d.now }
    ensures { OnOk result (out.new ≡ out.old ++ own.used_sources d.now sigs.now note.now x) }
{
    match note.bound {
        Binder::Def(k) => {
            if is_function(note) {
                return Ok(());
            }
            match nth(sigs, k as usize) {
                None => Ok(()),
                Some(sig) => add_own(sig, out),
            }
        }
        Binder::Var(_) => add_name(d, note.bound, x, out),
        Binder::Param(_) => add_name(d, note.bound, x, out),
        Binder::Nothing => Ok(()),
        Binder::Case(_, _) => Ok(()),
    }
}

/// What feeds some expressions.
#[cycle(sources)]
pub fn add_all_sources(
    d: &Tables,
    sigs: &[InitSig],
    place: &[Frame],
    all: &[Expr<Note>],
    out: &mut List<u32>,
) -> Result<(), NoMemory>
    requires { own.fits d.now }
    ensures { OnOk result (out.new ≡ out.old ++ own.all_sources d.now sigs.now place.now all.now) }
{
    for e in all {
        add_sources(d, sigs, place, e, out)?;
    }
    Ok(())
}

/// What feeds the branches of a `merge`.
pub fn add_choice_sources(
    d: &Tables,
    sigs: &[InitSig],
    place: &[Frame],
    all: &[(Case, Expr<Note>)],
    out: &mut List<u32>,
) -> Result<(), NoMemory>
    requires { own.fits d.now }
    ensures { OnOk result (out.new ≡ out.old ++ own.choice_sources d.now sigs.now place.now all.now) }
{
    for choice in all {
        add_sources(d, sigs, place, &choice.1, out)?;
    }
    Ok(())
}

#[cycle(sources)]
fn add_if(
    d: &Tables,
    sigs: &[InitSig],
    place: &[Frame],
    e: &Expr<Note>,
    chosen: bool,
    out: &mut List<u32>,
) -> Result<(), NoMemory>
    requires { own.fits d.now }
    ensures { OnOk result (out.new ≡ out.old ++ own.if_nodes chosen (own.sources d.now sigs.now place.now e.now)) }
{
    if chosen {
        add_sources(d, sigs, place, e, out)
    } else {
        Ok(())
    }
}

/// What feeds those of some arguments whose bits are as wanted.
#[cycle(sources)]
pub fn add_chosen_sources(
    d: &Tables,
    sigs: &[InitSig],
    place: &[Frame],
    bits: &[bool],
    want: bool,
    all: &[Expr<Note>],
    out: &mut List<u32>,
) -> Result<(), NoMemory>
    requires { own.fits d.now }
    ensures { OnOk result (out.new ≡ out.old ++ own.chosen_sources d.now sigs.now place.now bits.now want 0 all.now) }
{
    for (i, e) in all.iter().enumerate() {
        add_if(d, sigs, place, e, is_chosen(bits, want, i), out)?;
    }
    Ok(())
}

#[cycle(sources)]
fn add_defined(
    d: &Tables,
    sigs: &[InitSig],
    place: &[Frame],
    sig: Option<&InitSig>,
    args: &[Expr<Note>],
    out: &mut List<u32>,
) -> Result<(), NoMemory>
    requires { own.fits d.now }
    ensures { OnOk result (out.new ≡ out.old ++ own.defined_sources d.now sigs.now place.now (option_copied sig.entry) args.now) }
{
    match sig {
        None => Ok(()),
        Some(sig) => {
            add_own(sig, out)?;
            add_chosen_sources(d, sigs, place, sig.reaches.as_slice(), true, args, out)
        }
    }
}

#[cycle(sources)]
fn add_applied(
    d: &Tables,
    sigs: &[InitSig],
    place: &[Frame],
    run: bool,
    args: &[Expr<Note>],
    out: &mut List<u32>,
) -> Result<(), NoMemory>
    requires { own.fits d.now }
    ensures { OnOk result (out.new ≡ out.old ++ own.applied_sources d.now sigs.now place.now run args.now) }
{
    if run {
        Ok(())
    } else {
        add_all_sources(d, sigs, place, args, out)
    }
}

/// What feeds a call, or a function that is given some of its arguments.
#[cycle(sources)]
pub fn add_call_sources(
    d: &Tables,
    sigs: &[InitSig],
    place: &[Frame],
    run: bool,
    note: &Note,
    args: &[Expr<Note>],
    out: &mut List<u32>,
) -> Result<(), NoMemory>
    requires { own.fits d.now }
    ensures { OnOk result (out.new ≡ out.old ++ own.call_sources d.now sigs.now place.now run note.now args.now) }
{
    if is_function(note) {
        return Ok(());
    }
    match note.bound {
        Binder::Def(k) => add_defined(d, sigs, place, nth(sigs, k as usize), args, out),
        Binder::Var(_) => add_applied(d, sigs, place, run, args, out),
        Binder::Param(_) => add_applied(d, sigs, place, run, args, out),
        Binder::Nothing => add_applied(d, sigs, place, run, args, out),
        Binder::Case(_, _) => add_applied(d, sigs, place, run, args, out),
    }
}

#[cycle(sources)]
fn add_form(
    d: &Tables,
    sigs: &[InitSig],
    place: &[Frame],
    form: &Form<Note>,
    note: &Note,
    out: &mut List<u32>,
) -> Result<(), NoMemory>
    requires { own.fits d.now }
    ensures { OnOk result (out.new ≡ out.old ++ own.form_sources d.now sigs.now place.now form.now note.now) }
{
    match form {
        Form::Leaf(_) => Ok(()),
        Form::Case(_) => Ok(()),
        Form::Var(x) => add_used(d, sigs, note, x.0, out),
        Form::Last(_) => add_last(d, note.bound, out),
        Form::Asked(_) => Ok(()),
        Form::Op(_, args) => add_all_sources(d, sigs, place, args.as_slice(), out),
        Form::Tuple(all) => add_all_sources(d, sigs, place, all.as_slice(), out),
        Form::Pre(_) => out.push(ALWAYS),
        Form::Fby(a, _) => add_sources(d, sigs, place, a, out),
        Form::Init(a, _) => add_sources(d, sigs, place, a, out),
        Form::When(e, _, _) => add_sources(d, sigs, place, e, out),
        Form::Merge(_, _) => Ok(()),
        Form::Call { run, args, .. } => {
            add_call_sources(d, sigs, place, *run, note, args.as_slice(), out)
        }
    }
}

/// What feeds an expression at a place.
#[cycle(sources)]
pub fn add_sources(
    d: &Tables,
    sigs: &[InitSig],
    place: &[Frame],
    e: &Expr<Note>,
    out: &mut List<u32>,
) -> Result<(), NoMemory>
    requires { own.fits d.now }
    ensures { OnOk result (out.new ≡ out.old ++ own.sources d.now sigs.now place.now e.now) }
{
    add_form(d, sigs, place, e.form.get(), &e.note, out)
}
