//! What an expression reads at once.

ghost use Rattle.std.specs.Prelude.{◌≡◌, ◌++◌, OnOk};
ghost use Rattle.std.specs.Option.{option_copied};
ghost use Rattle.causality.specs.Walks as own;
ghost use Rattle.causality_rules.specs.Reads as spec;
ghost use Rattle.ls_places.specs.Search.{nth as variable};

use block_tables::BlockTables;
use ls_ast::{Case, Expr, Form};
use ls_base::{List, NoMemory};
use ls_places::{Definition, Frame, Key, Named, Variable};
use ls_sig::{Binder, Note};
use ls_terms::ClockTerm;
use place_tables::nth;

/// The blocks and conditions of what stands around a place.
pub fn add_place(place: &[Frame], out: &mut List<Key>) -> Result<(), NoMemory>
    ensures { OnOk result (out.new ≡ out.old ++ spec.place_rows place.now) }
{
    for frame in place {
        match frame {
            Frame::Reset(r) => out.push(Key::Reset(*r))?,
            Frame::Arm(m, _) => out.push(Key::Name(*m))?,
        }
    }
    Ok(())
}

/// The conditions of the resets around a place.
pub fn add_resets(place: &[Frame], out: &mut List<Key>) -> Result<(), NoMemory>
    ensures { OnOk result (out.new ≡ out.old ++ spec.reset_rows place.now) }
{
    for frame in place {
        match frame {
            Frame::Reset(r) => out.push(Key::Reset(*r))?,
            Frame::Arm(_, _) => {}
        }
    }
    Ok(())
}

fn add_bound(bound: Binder, out: &mut List<Key>) -> Result<(), NoMemory>
    ensures { OnOk result (out.new ≡ out.old ++ spec.bound_rows bound) }
{
    match bound {
        Binder::Var(k) => out.push(Key::Var(k)),
        Binder::Param(_) => Ok(()),
        Binder::Nothing => Ok(()),
        Binder::Def(_) => Ok(()),
        Binder::Case(_, _) => Ok(()),
    }
}

fn add_restarts(all: &[u32], out: &mut List<Key>) -> Result<(), NoMemory>
    ensures { OnOk result (out.new ≡ out.old ++ spec.restart_rows all.now) }
{
    for k in all {
        out.push(Key::Var(*k))?;
    }
    Ok(())
}

// ---- clocks

fn add_named(
    d: &Definition,
    m: u32,
    named: Option<&Named>,
    out: &mut List<Key>,
) -> Result<(), NoMemory>
    ensures { OnOk result (out.new ≡ out.old ++ spec.name_row d.now m (option_copied named.entry)) }
{
    match named {
        None => Ok(()),
        Some(Named::Clock(x)) => out.push(Key::Var(*x)),
        Some(Named::Match(_, _, _)) => out.push(Key::Name(m)),
        Some(Named::Present(_, _)) => out.push(Key::Name(m)),
        Some(Named::Active(_, _)) => out.push(Key::Name(m)),
        Some(Named::Tested(_, _)) => out.push(Key::Name(m)),
    }
}

fn add_clock_name(d: &Definition, m: u32, out: &mut List<Key>) -> Result<(), NoMemory>
    ensures { OnOk result (out.new ≡ out.old ++ spec.name_rows d.now m) }
{
    let first = d.params.len();
    if (m as usize) < first {
        return Ok(());
    }
    add_named(
        d,
        m,
        nth(d.places.names.as_slice(), m as usize - first),
        out,
    )
}

#[cycle(clock)]
fn add_all_clocks(d: &Definition, all: &[ClockTerm], out: &mut List<Key>) -> Result<(), NoMemory>
    ensures { OnOk result (out.new ≡ out.old ++ own.clocks_rows d.now all.now) }
{
    for ck in all {
        add_clock(d, ck, out)?;
    }
    Ok(())
}

/// The names in a clock.
#[cycle(clock)]
pub fn add_clock(d: &Definition, ck: &ClockTerm, out: &mut List<Key>) -> Result<(), NoMemory>
    ensures { OnOk result (out.new ≡ out.old ++ spec.clock_rows d.now ck.now) }
{
    match ck {
        ClockTerm::Var(_) => Ok(()),
        ClockTerm::On(inner, m, _) => {
            add_clock_name(d, *m, out)?;
            add_clock(d, inner.get(), out)
        }
        ClockTerm::Pointwise => Ok(()),
        ClockTerm::Arrow(all, to) => {
            add_all_clocks(d, all.as_slice(), out)?;
            add_clock(d, to.get(), out)
        }
    }
}

// ---- `last x`

/// The initial equation of a variable, where it has one.
pub fn add_start(d: &BlockTables, x: u32, w: &Variable, out: &mut List<Key>) -> Result<(), NoMemory>
    ensures { OnOk result (out.new ≡ out.old ++ own.start_rows d.now x w.now) }
{
    match d.tables().start_of(w) {
        None => Ok(()),
        Some(_) => out.push(Key::Start(x)),
    }
}

fn add_last_of(d: &BlockTables, x: u32, out: &mut List<Key>) -> Result<(), NoMemory>
    ensures { OnOk result (out.new ≡ out.old ++ spec.last_rows_of d.now x (variable d.now.places.vars x)) }
{
    match nth(d.definition().places.vars.as_slice(), x as usize) {
        None => Ok(()),
        Some(w) => {
            add_start(d, x, w, out)?;
            add_resets(w.place.as_slice(), out)
        }
    }
}

fn add_last(d: &BlockTables, bound: Binder, out: &mut List<Key>) -> Result<(), NoMemory>
    ensures { OnOk result (out.new ≡ out.old ++ spec.last_rows d.now bound) }
{
    match bound {
        Binder::Var(x) => add_last_of(d, x, out),
        Binder::Param(_) => Ok(()),
        Binder::Nothing => Ok(()),
        Binder::Def(_) => Ok(()),
        Binder::Case(_, _) => Ok(()),
    }
}

// ---- expressions

#[cycle(reads)]
fn add_all(d: &BlockTables, all: &[Expr<Note>], out: &mut List<Key>) -> Result<(), NoMemory>
    ensures { OnOk result (out.new ≡ out.old ++ own.all_rows d.now all.now) }
{
    for e in all {
        add_expr(d, e, out)?;
    }
    Ok(())
}

#[cycle(reads)]
fn add_choices(
    d: &BlockTables,
    all: &[(Case, Expr<Note>)],
    out: &mut List<Key>,
) -> Result<(), NoMemory>
    ensures { OnOk result (out.new ≡ out.old ++ own.choice_rows d.now all.now) }
{
    for choice in all {
        add_expr(d, &choice.1, out)?;
    }
    Ok(())
}

// Nothing is read at once below `pre` or on the right of `fby`.
#[cycle(reads)]
fn add_form(
    d: &BlockTables,
    form: &Form<Note>,
    note: &Note,
    out: &mut List<Key>,
) -> Result<(), NoMemory>
    ensures { OnOk result (out.new ≡ out.old ++ own.form_rows d.now form.now note.now) }
{
    match form {
        Form::Leaf(_) => Ok(()),
        Form::Case(_) => Ok(()),
        Form::Var(_) => add_bound(note.bound, out),
        Form::Last(_) => add_last(d, note.bound, out),
        Form::Asked(_) => add_bound(note.bound, out),
        Form::Op(_, args) => add_all(d, args.as_slice(), out),
        Form::Tuple(all) => add_all(d, all.as_slice(), out),
        Form::Pre(_) => add_restarts(note.restarts.as_slice(), out),
        Form::Fby(a, _) => {
            add_restarts(note.restarts.as_slice(), out)?;
            add_expr(d, a, out)
        }
        Form::Init(a, b) => {
            add_restarts(note.restarts.as_slice(), out)?;
            add_expr(d, a, out)?;
            add_expr(d, b, out)
        }
        Form::When(e, _, _) => {
            add_bound(note.bound, out)?;
            add_expr(d, e, out)
        }
        Form::Merge(_, choices) => {
            add_bound(note.bound, out)?;
            add_choices(d, choices.as_slice(), out)
        }
        Form::Call { args, every, .. } => {
            add_bound(note.bound, out)?;
            add_all(d, args.as_slice(), out)?;
            match every {
                None => Ok(()),
                Some(e) => add_expr(d, e, out),
            }
        }
    }
}

/// What an expression reads: the names in its own clock, and what its form reads.
#[cycle(reads)]
pub fn add_expr(d: &BlockTables, e: &Expr<Note>, out: &mut List<Key>) -> Result<(), NoMemory>
    ensures { OnOk result (out.new ≡ out.old ++ spec.read_by d.now e.now) }
{
    add_clock(d.definition(), &e.note.ck, out)?;
    add_form(d, e.form.get(), &e.note, out)
}
