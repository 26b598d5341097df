//! What each row reads: other rows, and whole expressions.

ghost use Rattle.std.specs.Prelude.{◌≡◌, ◌<◌, ◌++◌, length, map, Some, OnOk};
ghost use Rattle.causality.specs.Nodes.{fits};
ghost use Rattle.causality.specs.Rows as spec;
ghost use Rattle.causality_rules.specs.Reads as reads;
ghost use Rattle.ls_places.specs.Search.{nth as variable};
ghost use Rattle.place_tables.specs.Groups.{picked};

use crate::blocks::{add_block, add_block_wholes, add_signal};
use crate::reads::{add_expr, add_place, add_resets, add_start};
use block_tables::BlockTables;
use ls_base::{List, NoMemory};
use ls_places::{Definition, Frame, Key, Right, Site, Variable};
use place_tables::nth;
use std::alloc::Global;

// ---- the rows that a row reads

fn add_right(
    alloc: Global,
    d: &BlockTables,
    place: &[Frame],
    right: &Right,
    out: &mut List<Key>,
) -> Result<(), NoMemory>
    ensures { OnOk result (out.new ≡ out.old ++ spec.right_keys d.now place.now right.now) }
{
    match right {
        Right::Part(_, _) => Ok(()),
        Right::Whole(_) => Ok(()),
        Right::Pattern(x, _) => add_signal(alloc, d, place, *x, out),
    }
}

fn add_site(alloc: Global, d: &BlockTables, s: &Site, out: &mut List<Key>) -> Result<(), NoMemory>
    ensures { OnOk result (out.new ≡ out.old ++ spec.site_keys d.now s.now) }
{
    add_place(s.place.as_slice(), out)?;
    add_right(alloc, d, s.place.as_slice(), &s.right, out)
}

fn add_sites(
    alloc: Global,
    d: &BlockTables,
    numbers: &[u32],
    out: &mut List<Key>,
) -> Result<(), NoMemory>
    ensures { OnOk result (out.new ≡ out.old ++ spec.sites_keys d.now (picked d.now.places.sites numbers.now)) }
{
    for k in numbers {
        if let Some(s) = nth(d.definition().places.sites.as_slice(), *k as usize) {
            add_site(alloc, d, s, out)?;
        }
    }
    Ok(())
}

// Where an arm has no equation for a variable, its initial equation is read.
fn add_missing(d: &BlockTables, x: u32, w: &Variable, out: &mut List<Key>) -> Result<(), NoMemory>
    requires { x < length d.now.places.vars }
    ensures { OnOk result (out.new ≡ out.old ++ reads.missing_rows d.now x w.now) }
{
    if w.signal {
        return Ok(());
    }
    if d.tables().lacks(x) {
        add_start(d, x, w, out)
    } else {
        Ok(())
    }
}

fn add_variable(
    alloc: Global,
    d: &BlockTables,
    x: u32,
    w: &Variable,
    out: &mut List<Key>,
) -> Result<(), NoMemory>
    requires { x < length d.now.places.vars }
    ensures { OnOk result (out.new ≡ out.old ++ spec.variable_keys d.now x (Some w.now)) }
{
    add_place(w.place.as_slice(), out)?;
    add_missing(d, x, w, out)?;
    add_sites(alloc, d, d.tables().sites_of(x), out)
}

fn add_variable_at(
    alloc: Global,
    d: &BlockTables,
    x: u32,
    out: &mut List<Key>,
) -> Result<(), NoMemory>
    ensures { OnOk result (out.new ≡ out.old ++ spec.variable_keys d.now x (variable d.now.places.vars x)) }
{
    match nth(d.definition().places.vars.as_slice(), x as usize) {
        None => Ok(()),
        Some(w) => add_variable(alloc, d, x, w, out),
    }
}

fn add_initial(d: &BlockTables, w: &Variable, out: &mut List<Key>) -> Result<(), NoMemory>
    ensures { OnOk result (out.new ≡ out.old ++ spec.initial_keys d.now (Some w.now)) }
{
    match d.tables().start_of(w) {
        None => Ok(()),
        Some(_) => add_resets(w.place.as_slice(), out),
    }
}

fn add_initial_at(d: &BlockTables, x: u32, out: &mut List<Key>) -> Result<(), NoMemory>
    ensures { OnOk result (out.new ≡ out.old ++ spec.initial_keys d.now (variable d.now.places.vars x)) }
{
    match nth(d.definition().places.vars.as_slice(), x as usize) {
        None => Ok(()),
        Some(w) => add_initial(d, w, out),
    }
}

fn add_name(alloc: Global, d: &BlockTables, m: u32, out: &mut List<Key>) -> Result<(), NoMemory>
    requires { fits d.now }
    ensures { OnOk result (out.new ≡ out.old ++ spec.name_keys d.now m) }
{
    let first = d.definition().params.len();
    if (m as usize) < first {
        return Ok(());
    }
    match nth(d.definition().places.names.as_slice(), m as usize - first) {
        None => Ok(()),
        Some(named) => add_block(alloc, d, m, named, out),
    }
}

/// The rows that a row reads but for its whole expressions.
pub fn add_keys(alloc: Global, d: &BlockTables, k: Key, out: &mut List<Key>) -> Result<(), NoMemory>
    requires { fits d.now }
    ensures { OnOk result (out.new ≡ out.old ++ spec.keys d.now k) }
{
    match k {
        Key::Var(x) => add_variable_at(alloc, d, x, out),
        Key::Start(x) => add_initial_at(d, x, out),
        Key::Name(m) => add_name(alloc, d, m, out),
        Key::Reset(_) => Ok(()),
    }
}

// ---- its whole expressions

fn add_right_wholes(right: &Right, out: &mut List<u32>) -> Result<(), NoMemory>
    ensures { OnOk result (out.new ≡ out.old ++ spec.right_wholes right.now) }
{
    match right {
        Right::Part(_, k) => out.push(*k),
        Right::Whole(k) => out.push(*k),
        Right::Pattern(_, _) => Ok(()),
    }
}

fn add_sites_wholes(d: &Definition, numbers: &[u32], out: &mut List<u32>) -> Result<(), NoMemory>
    ensures { OnOk result (out.new ≡ out.old ++ spec.sites_wholes (picked d.now.places.sites numbers.now)) }
{
    for k in numbers {
        if let Some(s) = nth(d.places.sites.as_slice(), *k as usize) {
            add_right_wholes(&s.right, out)?;
        }
    }
    Ok(())
}

fn add_variable_wholes(d: &BlockTables, x: u32, out: &mut List<u32>) -> Result<(), NoMemory>
    ensures { OnOk result (out.new ≡ out.old ++ spec.variable_wholes d.now x (variable d.now.places.vars x)) }
{
    match nth(d.definition().places.vars.as_slice(), x as usize) {
        None => Ok(()),
        Some(_) => add_sites_wholes(d.definition(), d.tables().sites_of(x), out),
    }
}

fn add_started_whole(d: &BlockTables, w: &Variable, out: &mut List<u32>) -> Result<(), NoMemory>
    ensures { OnOk result (out.new ≡ out.old ++ spec.initial_wholes d.now (Some w.now)) }
{
    match d.tables().start_of(w) {
        None => Ok(()),
        Some(s) => out.push(s.right),
    }
}

fn add_initial_whole(d: &BlockTables, x: u32, out: &mut List<u32>) -> Result<(), NoMemory>
    ensures { OnOk result (out.new ≡ out.old ++ spec.initial_wholes d.now (variable d.now.places.vars x)) }
{
    match nth(d.definition().places.vars.as_slice(), x as usize) {
        None => Ok(()),
        Some(w) => add_started_whole(d, w, out),
    }
}

fn add_name_wholes(d: &Definition, m: u32, out: &mut List<u32>) -> Result<(), NoMemory>
    ensures { OnOk result (out.new ≡ out.old ++ spec.name_wholes d.now m) }
{
    let first = d.params.len();
    if (m as usize) < first {
        return Ok(());
    }
    match nth(d.places.names.as_slice(), m as usize - first) {
        None => Ok(()),
        Some(named) => add_block_wholes(named, out),
    }
}

fn add_condition(d: &Definition, r: u32, out: &mut List<u32>) -> Result<(), NoMemory>
    ensures { OnOk result (out.new ≡ out.old ++ spec.condition_wholes (variable d.now.places.resets r)) }
{
    match nth(d.places.resets.as_slice(), r as usize) {
        None => Ok(()),
        Some(k) => out.push(*k),
    }
}

/// The whole expressions that a row reads.
pub fn add_wholes(d: &BlockTables, k: Key, out: &mut List<u32>) -> Result<(), NoMemory>
    ensures { OnOk result (out.new ≡ out.old ++ spec.wholes d.now k) }
{
    match k {
        Key::Var(x) => add_variable_wholes(d, x, out),
        Key::Start(x) => add_initial_whole(d, x, out),
        Key::Name(m) => add_name_wholes(d.definition(), m, out),
        Key::Reset(r) => add_condition(d.definition(), r, out),
    }
}

/// What a whole expression reads, with what stands around it.
pub fn add_whole(d: &BlockTables, k: u32, out: &mut List<Key>) -> Result<(), NoMemory>
    ensures { OnOk result (out.new ≡ out.old ++ reads.whole_rows d.now k) }
{
    match nth(d.definition().places.exprs.as_slice(), k as usize) {
        None => Ok(()),
        Some(whole) => {
            add_place(whole.place.as_slice(), out)?;
            add_expr(d, &whole.expr, out)
        }
    }
}
