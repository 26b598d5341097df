//! Clock schemes of annotated definitions.

ghost use Rattle.std.specs.Prelude.{◌≡◌, ◌++◌, ◌∷◌, [], map, IfOk, OnOk};
ghost use Rattle.clock_infer.specs.Filed as filed;
ghost use Rattle.clock_infer.specs.Schemes as spec;
ghost use Rattle.clock_rules.specs.Files as files;
ghost use Rattle.clock_rules.specs.Rules as rules;
ghost use Rattle.ls_places.specs.Definitions.{note_clocks};
ghost use Rattle.term_unify.specs.Terms.{first};
ghost use Rattle.tree_notes.specs.Order.{joined};

use crate::nodes::Put;
use crate::puts::put_clocks;
use clock_rules::ClockScheme;
use ls_ast::{DefOf, Mark};
use ls_base::{List, NoMemory, NoteCopy};
use ls_sig::{Note, Sig};
use ls_terms::ClockTerm;
use std::alloc::Global;
use term_unify::{Subst, Term};

/// Adds a variable that is not there yet, with the next number.
fn add_variable(x: u32, seen: &mut Put) -> Result<(), NoMemory>
    ensures { OnOk result (seen.new.list ≡ spec.seen_one seen.old.list x) }
{
    if seen.get(x).is_some() {
        return Ok(());
    }
    let number = seen.list.len() as u32;
    seen.push(x, ClockTerm::Var(number))
}

/// Adds the variables of a clock that are not there yet.
#[cycle(appear)]
fn appear(t: &ClockTerm, seen: &mut Put) -> Result<(), NoMemory>
    ensures { OnOk result (seen.new.list ≡ spec.seen_all seen.old.list (files.variables_in t.now)) }
{
    match t {
        ClockTerm::Var(x) => add_variable(*x, seen),
        ClockTerm::On(of, _, _) => appear(of.get(), seen),
        ClockTerm::Pointwise => Ok(()),
        ClockTerm::Arrow(all, to) => {
            appear_all(all.as_slice(), seen)?;
            appear(to.get(), seen)
        }
    }
}

#[cycle(appear)]
fn appear_all(all: &[ClockTerm], seen: &mut Put) -> Result<(), NoMemory>
    ensures { OnOk result (seen.new.list ≡ spec.seen_all seen.old.list (joined (map files.variables_in all.now))) }
{
    for t in all {
        appear(t, seen)?;
    }
    Ok(())
}

/// The variables of some clocks, each with its number by first appearance.
fn numbers(alloc: Global, all: &[ClockTerm]) -> Result<Put, NoMemory>
    ensures { IfOk result (λ r. r.list ≡ spec.seen_all [] (joined (map files.variables_in all.now))) }
{
    let mut seen = Subst::new(alloc);
    appear_all(all, &mut seen)?;
    Ok(seen)
}

/// The clocks of notes, and another one behind them.
fn clocks_and(alloc: Global, notes: &[Note], ck: &ClockTerm) -> Result<List<ClockTerm>, NoMemory>
    ensures { IfOk result (λ r. r ≡ note_clocks notes.now ++ ck.now ∷ []) }
{
    let mut done = clocks_of(alloc, notes)?;
    done.push(ck.copy(alloc)?)?;
    Ok(done)
}

fn clocks_of(alloc: Global, notes: &[Note]) -> Result<List<ClockTerm>, NoMemory>
    ensures { IfOk result (λ r. r ≡ note_clocks notes.now) }
{
    let mut done = List::new(alloc);
    for note in notes {
        done.push(note.ck.copy(alloc)?)?;
    }
    Ok(done)
}

fn is_clock(mark: Mark) -> bool
    ensures { result ≡ rules.is_clock_mark mark }
{
    match mark {
        Mark::Clock => true,
        Mark::Unknown => false,
        Mark::Data => false,
        Mark::Signal => false,
        Mark::Comb => false,
        Mark::Seq => false,
    }
}

/// The numbers of the parameters that are clock names.
fn clock_marks(alloc: Global, marks: &List<Mark>) -> Result<List<u32>, NoMemory>
    ensures { IfOk result (λ r. r ≡ files.clock_marks marks.now 0) }
{
    let mut done = List::new(alloc);
    let all = marks.as_slice();
    for (k, mark) in all.iter().enumerate() {
        if is_clock(*mark) {
            done.push(k as u32)?;
        }
    }
    Ok(done)
}

/// The clock scheme of an annotated definition: its variables are numbered by first appearance,
/// parameters first.
pub fn scheme(
    alloc: Global,
    marks: &List<Mark>,
    notes: &[Note],
    ck: &ClockTerm,
) -> Result<ClockScheme, NoMemory>
    ensures { IfOk result (λ r. r ≡ files.scheme marks.now notes.now ck.now) }
{
    let all = clocks_and(alloc, notes, ck)?;
    let by = numbers(alloc, all.as_slice())?;
    let own = clocks_of(alloc, notes)?;
    Ok(ClockScheme {
        clocks: put_clocks(alloc, own.as_slice(), &by)?,
        result: ck.put(alloc, &by)?,
        names: clock_marks(alloc, marks)?,
    })
}

/// Adds the scheme of a definition.
pub fn add_scheme(
    alloc: Global,
    def: &DefOf<Note>,
    schemes: &mut List<ClockScheme>,
) -> Result<(), NoMemory>
    ensures { OnOk result (schemes.new ≡ filed.schemes_after schemes.old def.now) }
{
    match def {
        DefOf::Cases { .. } => Ok(()),
        DefOf::Let {
            marks,
            notes,
            body,
            ..
        } => schemes.push(scheme(alloc, marks, notes.as_slice(), &body.result.note.ck)?),
    }
}

fn scheme_of(alloc: Global, sig: &Sig) -> Result<ClockScheme, NoMemory>
    ensures { IfOk result (λ r. r ≡ files.scheme_of sig.now) }
{
    Ok(ClockScheme {
        clocks: sig.clocks.copy(alloc)?,
        result: sig.result_clock.copy(alloc)?,
        names: sig.clock_names.copy(alloc)?,
    })
}

/// The clock schemes of signatures.
pub fn schemes_of(alloc: Global, sigs: &[Sig]) -> Result<List<ClockScheme>, NoMemory>
    ensures { IfOk result (λ r. r ≡ map files.scheme_of sigs.now) }
{
    let mut done = List::new(alloc);
    for sig in sigs {
        done.push(scheme_of(alloc, sig)?)?;
    }
    Ok(done)
}
