//! Signals, and what blocks read.

ghost use Rattle.std.specs.Prelude.{◌≡◌, ◌+◌, ◌<◌, ◌^◌, ◌++◌, map, Some, IfOk, OnOk};
ghost use Rattle.std.specs.Option.{option_copied};
ghost use Rattle.causality.specs.Blocks as own;
ghost use Rattle.causality.specs.Rows as rows;
ghost use Rattle.causality_rules.specs.Reads as reads;
ghost use Rattle.ls_places.specs.Patterns.{joined};
ghost use Rattle.ls_places.specs.Search.{clock_of_param, nth as nth_site};
ghost use Rattle.place_tables.specs.Groups.{picked};

use crate::reads::{add_clock, add_place};
use block_tables::{BlockTables, bare};
use ls_base::{List, NoMemory};
use ls_places::{Definition, Frame, Key, Named, Right, Site, Transition};
use ls_terms::ClockTerm;
use place_tables::{arms, nth};
use std::alloc::Global;

// ---- signals

// The signal that is seen at a place.
fn signal_at(
    alloc: Global,
    d: &BlockTables,
    place: &[Frame],
    x: u32,
) -> Result<Option<u32>, NoMemory>
    ensures { IfOk result (λ r. r ≡ own.signal_in d.now place.now x) }
{
    let p = arms(alloc, place)?;
    Ok(d.signal_at(x, p.as_slice()))
}

/// The signal of this name, where one is seen at a place.
pub fn add_signal(
    alloc: Global,
    d: &BlockTables,
    place: &[Frame],
    x: u32,
    out: &mut List<Key>,
) -> Result<(), NoMemory>
    ensures { OnOk result (out.new ≡ out.old ++ reads.signal_rows d.now place.now x) }
{
    match signal_at(alloc, d, place, x)? {
        None => Ok(()),
        Some(k) => out.push(Key::Var(k)),
    }
}

fn add_signals(
    alloc: Global,
    d: &BlockTables,
    place: &[Frame],
    all: &[u32],
    out: &mut List<Key>,
) -> Result<(), NoMemory>
    ensures { OnOk result (out.new ≡ out.old ++ joined (map (reads.signal_rows d.now place.now) all.now)) }
{
    for x in all {
        add_signal(alloc, d, place, *x, out)?;
    }
    Ok(())
}

// ---- the clocks of blocks

// The clock of the expression of an equation, without the samplings of the arms between.
fn add_whole_clock(d: &Definition, s: &Site, k: u32, out: &mut List<Key>) -> Result<(), NoMemory>
    ensures { OnOk result (out.new ≡ out.old ++ own.whole_clock d.now s.now k) }
{
    match nth(d.places.exprs.as_slice(), k as usize) {
        None => Ok(()),
        Some(w) => add_clock(d, bare(s.inner.len(), &w.expr.note.ck), out),
    }
}

fn add_site_clock(d: &Definition, s: &Site, out: &mut List<Key>) -> Result<(), NoMemory>
    ensures { OnOk result (out.new ≡ out.old ++ reads.right_clock d.now s.now s.now.right) }
{
    match &s.right {
        Right::Part(_, k) => add_whole_clock(d, s, *k, out),
        Right::Whole(k) => add_whole_clock(d, s, *k, out),
        Right::Pattern(_, _) => Ok(()),
    }
}

// The clock of the first of some equations.
fn add_first_clock(d: &Definition, numbers: &[u32], out: &mut List<Key>) -> Result<(), NoMemory>
    ensures { OnOk result (out.new ≡ out.old ++ reads.site_clock d.now (nth_site (picked d.now.places.sites numbers.now) 0)) }
{
    for k in numbers {
        if let Some(s) = nth(d.places.sites.as_slice(), *k as usize) {
            return add_site_clock(d, s, out);
        }
    }
    Ok(())
}

fn add_some_clock(
    d: &Definition,
    ck: Option<&ClockTerm>,
    out: &mut List<Key>,
) -> Result<(), NoMemory>
    ensures { OnOk result (out.new ≡ out.old ++ reads.some_clock d.now (option_copied ck.entry)) }
{
    match ck {
        None => Ok(()),
        Some(ck) => add_clock(d, ck, out),
    }
}

// The clock of the parameter that binds a name.
fn param_clock<'a>(d: &'a BlockTables, x: u32) -> Option<&'a ClockTerm>
    ensures { option_copied result ≡ clock_of_param d.now x }
{
    match d.tables().param_of(x) {
        None => None,
        Some(k) => nth(d.definition().clocks.as_slice(), k as usize),
    }
}

// The names in the clock of a signal that is seen at a place.
fn add_signal_clock(
    alloc: Global,
    d: &BlockTables,
    place: &[Frame],
    x: u32,
    out: &mut List<Key>,
) -> Result<(), NoMemory>
    ensures { OnOk result (out.new ≡ out.old ++ reads.signal_clock d.now x (own.signal_in d.now place.now x)) }
{
    match signal_at(alloc, d, place, x)? {
        None => add_some_clock(d.definition(), param_clock(d, x), out),
        Some(k) => add_first_clock(d.definition(), d.tables().sites_of(k), out),
    }
}

fn add_present_clock(
    alloc: Global,
    d: &BlockTables,
    place: &[Frame],
    all: &[u32],
    out: &mut List<Key>,
) -> Result<(), NoMemory>
    ensures { OnOk result (out.new ≡ out.old ++ reads.present_clock d.now all.now place.now) }
{
    match all {
        [] => Ok(()),
        [x, ..] => add_signal_clock(alloc, d, place, *x, out),
    }
}

// The names in the clock of the automaton with the clock names `m` and `m + 1`.
fn add_mode(
    alloc: Global,
    d: &BlockTables,
    m: u32,
    place: &[Frame],
    out: &mut List<Key>,
) -> Result<(), NoMemory>
    requires { m + 1 < 2 ^ 32 }
    ensures { OnOk result (out.new ≡ out.old ++ reads.mode_rows d.now m place.now) }
{
    add_some_clock(d.definition(), d.block_clock(m), out)?;
    add_some_clock(d.definition(), d.block_clock(m + 1), out)?;
    match d.tested_outside(m) {
        None => Ok(()),
        Some(x) => add_signal_clock(alloc, d, place, x, out),
    }
}

// ---- the rows of blocks

fn add_present(
    alloc: Global,
    d: &BlockTables,
    all: &[u32],
    place: &[Frame],
    out: &mut List<Key>,
) -> Result<(), NoMemory>
    ensures { OnOk result (out.new ≡ out.old ++ own.present_keys d.now all.now place.now) }
{
    add_place(place, out)?;
    add_present_clock(alloc, d, place, all, out)?;
    add_signals(alloc, d, place, all, out)
}

fn add_active(
    alloc: Global,
    d: &BlockTables,
    m: u32,
    place: &[Frame],
    out: &mut List<Key>,
) -> Result<(), NoMemory>
    requires { m + 1 < 2 ^ 32 }
    ensures { OnOk result (out.new ≡ out.old ++ own.active_keys d.now m place.now) }
{
    out.push(Key::Name(m + 1))?;
    add_place(place, out)?;
    add_mode(alloc, d, m, place, out)
}

fn add_tested(
    alloc: Global,
    d: &BlockTables,
    m: u32,
    place: &[Frame],
    out: &mut List<Key>,
) -> Result<(), NoMemory>
    requires { m + 1 < 2 ^ 32 }
    ensures { OnOk result (out.new ≡ out.old ++ own.tested_keys d.now m place.now) }
{
    add_place(place, out)?;
    add_mode(alloc, d, m.saturating_sub(1), place, out)
}

/// The rows that a block reads but for its whole expressions. A tested row reads no guard; an
/// active row reads the tested row and all strong guards.
pub fn add_block(
    alloc: Global,
    d: &BlockTables,
    m: u32,
    named: &Named,
    out: &mut List<Key>,
) -> Result<(), NoMemory>
    requires { m + 1 < 2 ^ 32 }
    ensures { OnOk result (out.new ≡ out.old ++ rows.block_keys d.now m (Some named.now)) }
{
    match named {
        Named::Clock(_) => Ok(()),
        Named::Match(_, _, place) => add_place(place.as_slice(), out),
        Named::Present(all, place) => {
            add_present(alloc, d, all.as_slice(), place.as_slice(), out)
        }
        Named::Active(_, place) => add_active(alloc, d, m, place.as_slice(), out),
        Named::Tested(_, place) => add_tested(alloc, d, m, place.as_slice(), out),
    }
}

fn add_guards(all: &[Transition], out: &mut List<u32>) -> Result<(), NoMemory>
    ensures { OnOk result (out.new ≡ out.old ++ rows.guard_wholes all.now) }
{
    for guard in all {
        out.push(guard.cond)?;
    }
    Ok(())
}

fn add_states(all: &[(u32, List<Transition>)], out: &mut List<u32>) -> Result<(), NoMemory>
    ensures { OnOk result (out.new ≡ out.old ++ rows.state_wholes all.now) }
{
    for state in all {
        add_guards(state.1.as_slice(), out)?;
    }
    Ok(())
}

/// The whole expressions that a block reads.
pub fn add_block_wholes(named: &Named, out: &mut List<u32>) -> Result<(), NoMemory>
    ensures { OnOk result (out.new ≡ out.old ++ rows.block_wholes (Some named.now)) }
{
    match named {
        Named::Clock(_) => Ok(()),
        Named::Match(k, _, _) => out.push(*k),
        Named::Present(_, _) => Ok(()),
        Named::Active(states, _) => add_states(states.as_slice(), out),
        Named::Tested(_, _) => Ok(()),
    }
}
