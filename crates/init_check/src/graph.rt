//! The graph of a body's bits.

ghost use Rattle.std.specs.Prelude.{◌≡◌, ◌<◌, ◌++◌, [], ◌∷◌, map, length, IfOk, OnOk};
ghost use Rattle.std.specs.Option.{option_copied};
ghost use Rattle.init_check.specs.Rows as own;
ghost use Rattle.init_check.specs.Walks.{fits};
ghost use Rattle.init_rules.specs.Bits as bits;
ghost use Rattle.init_rules.specs.Nodes as spec;
ghost use Rattle.init_rules.specs.Nodes.{counts};
ghost use Rattle.ls_places.specs.Patterns.{joined};
ghost use Rattle.ls_places.specs.Search.{count_up};
ghost use Rattle.place_tables.specs.Groups.{picked};

use crate::nodes::{add_start, total_nodes, whole_node};
use crate::sources::add_sources;
use crate::zeros::add_zeros;
use digraph::{Graph, Rows};
use ls_base::{List, NoMemory};
use ls_places::{Definition, Frame, Named, Right, Site, Transition, Variable, Whole};
use ls_sig::{InitSig, Note};
use place_tables::{Tables, nth};
use std::alloc::Global;

// ---- what feeds variables

fn add_right(d: &Definition, right: &Right, out: &mut List<u32>) -> Result<(), NoMemory>
    requires { fits d.now }
    ensures { OnOk result (out.new ≡ out.old ++ spec.right_row (counts d.now) right.now) }
{
    match right {
        Right::Part(_, k) => out.push(whole_node(d, *k)),
        Right::Whole(k) => out.push(whole_node(d, *k)),
        Right::Pattern(_, _) => Ok(()),
    }
}

fn add_sites(d: &Definition, numbers: &[u32], out: &mut List<u32>) -> Result<(), NoMemory>
    requires { fits d.now }
    ensures { OnOk result (out.new ≡ out.old ++ spec.sites_row (counts d.now) (picked d.now.places.sites numbers.now)) }
{
    for k in numbers {
        if let Some(s) = nth(d.places.sites.as_slice(), *k as usize) {
            add_right(d, &s.right, out)?;
        }
    }
    Ok(())
}

fn variable_row(alloc: Global, d: &Tables, k: u32) -> Result<List<u32>, NoMemory>
    requires { fits d.now }
    ensures { IfOk result (λ r. r ≡ own.variable_nodes d.now k) }
{
    let mut row = List::new(alloc);
    add_sites(d.definition(), d.sites_of(k), &mut row)?;
    Ok(row)
}

fn initial_row(alloc: Global, d: &Tables, w: &Variable) -> Result<List<u32>, NoMemory>
    requires { fits d.now }
    ensures { IfOk result (λ r. r ≡ own.initial_nodes d.now w.now) }
{
    let mut row = List::new(alloc);
    match d.start_of(w) {
        None => {}
        Some(s) => row.push(whole_node(d.definition(), s.right))?,
    }
    Ok(row)
}

// ---- what has to be 0

fn add_expr_zeros(d: &Tables, sigs: &[InitSig], out: &mut List<u32>) -> Result<(), NoMemory>
    requires { fits d.now }
    ensures { OnOk result (out.new ≡ out.old ++ joined (map (spec.expr_zero_row d.now sigs.now) d.now.places.exprs)) }
{
    for whole in d.definition().places.exprs.as_slice() {
        add_zeros(d, sigs, whole.place.as_slice(), &whole.expr, out)?;
    }
    Ok(())
}

fn is_whole(right: &Right) -> bool
    ensures { result ≡ bits.is_whole right.now }
{
    match right {
        Right::Whole(_) => true,
        Right::Part(_, _) => false,
        Right::Pattern(_, _) => false,
    }
}

// Whether a `reset` stands inside the first `n` arms of a place.
fn reset_within(n: usize, place: &[Frame]) -> bool
    ensures { result ≡ bits.reset_within n place.now }
{
    let mut left = n;
    for frame in place {
        match frame {
            Frame::Reset(_) => {
                if left == 0 {
                    return true;
                }
            }
            Frame::Arm(_, _) => left = left.saturating_sub(1),
        }
    }
    false
}

fn is_bound_by_zero(w: Option<&Variable>, s: &Site) -> bool
    ensures { result ≡ bits.is_bound_by_zero (option_copied w.entry) s.now }
{
    match w {
        None => true,
        Some(w) => {
            s.inner.len() > 0
                || is_whole(&s.right)
                || reset_within(w.list.len(), s.place.as_slice())
        }
    }
}

fn binds_zero(d: &Definition, s: &Site) -> bool
    ensures { result ≡ bits.binds_zero d.now s.now }
{
    for k in s.vars.as_slice() {
        if is_bound_by_zero(nth(d.places.vars.as_slice(), *k as usize), s) {
            return true;
        }
    }
    false
}

fn add_site_zero(d: &Definition, s: &Site, out: &mut List<u32>) -> Result<(), NoMemory>
    requires { fits d.now }
    ensures { OnOk result (out.new ≡ out.old ++ own.site_zero_nodes d.now s.now) }
{
    if binds_zero(d, s) {
        add_right(d, &s.right, out)
    } else {
        Ok(())
    }
}

fn add_site_zeros(d: &Definition, out: &mut List<u32>) -> Result<(), NoMemory>
    requires { fits d.now }
    ensures { OnOk result (out.new ≡ out.old ++ joined (map (own.site_zero_nodes d.now) d.now.places.sites)) }
{
    for s in d.places.sites.as_slice() {
        add_site_zero(d, s, out)?;
    }
    Ok(())
}

// An arm without an equation for a variable is `last` of it.
fn add_variable_zero(d: &Tables, k: u32, w: &Variable, out: &mut List<u32>) -> Result<(), NoMemory>
    requires here { k < length d.now.places.vars }
    requires fits { fits d.now }
    ensures { OnOk result (out.new ≡ out.old ++ own.missing_nodes d.now k w.now) }
{
    if w.signal {
        return Ok(());
    }
    if d.lacks(k) {
        add_start(d, k, w, out)
    } else {
        Ok(())
    }
}

fn add_variable_zeros(d: &Tables, out: &mut List<u32>) -> Result<(), NoMemory>
    requires { fits d.now }
    ensures { OnOk result (out.new ≡ out.old ++ joined (map (own.variable_zero_nodes d.now) (count_up (length d.now.places.vars) 0))) }
{
    for (k, w) in d.definition().places.vars.as_slice().iter().enumerate() {
        add_variable_zero(d, k as u32, w, out)?;
    }
    Ok(())
}

fn add_guards(d: &Definition, all: &[Transition], out: &mut List<u32>) -> Result<(), NoMemory>
    requires { fits d.now }
    ensures { OnOk result (out.new ≡ out.old ++ spec.guards_row (counts d.now) all.now) }
{
    for guard in all {
        out.push(whole_node(d, guard.cond))?;
    }
    Ok(())
}

fn add_states(
    d: &Definition,
    all: &[(u32, List<Transition>)],
    out: &mut List<u32>,
) -> Result<(), NoMemory>
    requires { fits d.now }
    ensures { OnOk result (out.new ≡ out.old ++ spec.states_row (counts d.now) all.now) }
{
    for state in all {
        add_guards(d, state.1.as_slice(), out)?;
    }
    Ok(())
}

fn add_named(d: &Definition, named: &Named, out: &mut List<u32>) -> Result<(), NoMemory>
    requires { fits d.now }
    ensures { OnOk result (out.new ≡ out.old ++ spec.named_row (counts d.now) named.now) }
{
    match named {
        Named::Clock(_) => Ok(()),
        Named::Match(k, _, _) => out.push(whole_node(d, *k)),
        Named::Present(_, _) => Ok(()),
        Named::Active(states, _) => add_states(d, states.as_slice(), out),
        Named::Tested(states, _) => add_states(d, states.as_slice(), out),
    }
}

fn add_all_named(d: &Definition, out: &mut List<u32>) -> Result<(), NoMemory>
    requires { fits d.now }
    ensures { OnOk result (out.new ≡ out.old ++ joined (map (spec.named_row (counts d.now)) d.now.places.names)) }
{
    for named in d.places.names.as_slice() {
        add_named(d, named, out)?;
    }
    Ok(())
}

fn add_resets(d: &Definition, out: &mut List<u32>) -> Result<(), NoMemory>
    requires { fits d.now }
    ensures { OnOk result (out.new ≡ out.old ++ map (spec.whole_node (counts d.now)) d.now.places.resets) }
{
    for k in d.places.resets.as_slice() {
        out.push(whole_node(d, *k))?;
    }
    Ok(())
}

fn zero_row(alloc: Global, d: &Tables, sigs: &[InitSig]) -> Result<List<u32>, NoMemory>
    requires { fits d.now }
    ensures { IfOk result (λ r. r ≡ spec.zero_row d.now sigs.now) }
{
    let mut row = List::new(alloc);
    add_expr_zeros(d, sigs, &mut row)?;
    add_site_zeros(d.definition(), &mut row)?;
    add_variable_zeros(d, &mut row)?;
    add_all_named(d.definition(), &mut row)?;
    add_resets(d.definition(), &mut row)?;
    Ok(row)
}

// ---- the rows of the graph

// The row of the node that reads all that has to be 0.
fn add_zero_row(
    alloc: Global,
    d: &Tables,
    sigs: &[InitSig],
    rows: &mut Rows,
) -> Result<(), NoMemory>
    requires fits { fits d.now }
    requires nodes { own.AreNodes rows.old d.now }
    ensures nodes { OnOk result (own.AreNodes rows.new d.now) }
    ensures rows { OnOk result (own.AddsRows rows.old (spec.zero_row d.now sigs.now ∷ []) rows.new) }
{
    let row = zero_row(alloc, d, sigs)?;
    rows.add(row.as_slice())
}

fn add_empty_rows(d: &Definition, many: usize, rows: &mut Rows) -> Result<(), NoMemory>
    requires nodes { own.AreNodes rows.old d.now }
    ensures nodes { OnOk result (own.AreNodes rows.new d.now) }
    ensures rows { OnOk result (own.AddsRows rows.old (spec.empty_rows many) rows.new) }
{
    for _k in 0..many {
        rows.add(&[])?;
    }
    Ok(())
}

fn add_variable_row(alloc: Global, d: &Tables, k: u32, rows: &mut Rows) -> Result<(), NoMemory>
    requires fits { fits d.now }
    requires nodes { own.AreNodes rows.old d.now }
    ensures nodes { OnOk result (own.AreNodes rows.new d.now) }
    ensures rows { OnOk result (own.AddsRows rows.old (own.variable_nodes d.now k ∷ []) rows.new) }
{
    let row = variable_row(alloc, d, k)?;
    rows.add(row.as_slice())
}

fn add_variable_rows(alloc: Global, d: &Tables, rows: &mut Rows) -> Result<(), NoMemory>
    requires fits { fits d.now }
    requires nodes { own.AreNodes rows.old d.now }
    ensures nodes { OnOk result (own.AreNodes rows.new d.now) }
    ensures rows { OnOk result (own.AddsRows rows.old (map (own.variable_nodes d.now) (count_up (length d.now.places.vars) 0)) rows.new) }
{
    for k in 0..d.definition().places.vars.len() {
        add_variable_row(alloc, d, k as u32, rows)?;
    }
    Ok(())
}

fn add_initial_row(alloc: Global, d: &Tables, w: &Variable, rows: &mut Rows) -> Result<(), NoMemory>
    requires fits { fits d.now }
    requires nodes { own.AreNodes rows.old d.now }
    ensures nodes { OnOk result (own.AreNodes rows.new d.now) }
    ensures rows { OnOk result (own.AddsRows rows.old (own.initial_nodes d.now w.now ∷ []) rows.new) }
{
    let row = initial_row(alloc, d, w)?;
    rows.add(row.as_slice())
}

fn add_initial_rows(alloc: Global, d: &Tables, rows: &mut Rows) -> Result<(), NoMemory>
    requires fits { fits d.now }
    requires nodes { own.AreNodes rows.old d.now }
    ensures nodes { OnOk result (own.AreNodes rows.new d.now) }
    ensures rows { OnOk result (own.AddsRows rows.old (map (own.initial_nodes d.now) d.now.places.vars) rows.new) }
{
    for w in d.definition().places.vars.as_slice() {
        add_initial_row(alloc, d, w, rows)?;
    }
    Ok(())
}

fn add_whole_row(
    alloc: Global,
    d: &Tables,
    sigs: &[InitSig],
    whole: &Whole<Note>,
    rows: &mut Rows,
) -> Result<(), NoMemory>
    requires fits { fits d.now }
    requires nodes { own.AreNodes rows.old d.now }
    ensures nodes { OnOk result (own.AreNodes rows.new d.now) }
    ensures rows { OnOk result (own.AddsRows rows.old (spec.whole_row d.now sigs.now whole.now ∷ []) rows.new) }
{
    let mut row = List::new(alloc);
    add_sources(d, sigs, whole.place.as_slice(), &whole.expr, &mut row)?;
    rows.add(row.as_slice())
}

fn add_whole_rows(
    alloc: Global,
    d: &Tables,
    sigs: &[InitSig],
    rows: &mut Rows,
) -> Result<(), NoMemory>
    requires fits { fits d.now }
    requires nodes { own.AreNodes rows.old d.now }
    ensures nodes { OnOk result (own.AreNodes rows.new d.now) }
    ensures rows { OnOk result (own.AddsRows rows.old (map (spec.whole_row d.now sigs.now) d.now.places.exprs) rows.new) }
{
    for whole in d.definition().places.exprs.as_slice() {
        add_whole_row(alloc, d, sigs, whole, rows)?;
    }
    Ok(())
}

// The rows of the bit that is 1, of what has to be 0, of what is not there, and of the parameters.
fn first_rows(alloc: Global, d: &Tables, sigs: &[InitSig]) -> Result<Rows, NoMemory>
    requires fits { fits d.now }
    ensures nodes { IfOk result (λ r. own.AreNodes r d.now) }
    ensures rows { IfOk result (λ r. r.1 ≡ own.first_rows d.now sigs.now) }
{
    let mut rows = Rows::new(alloc, total_nodes(d.definition()) as u32);
    add_empty_rows(d.definition(), 1, &mut rows)?;
    add_zero_row(alloc, d, sigs, &mut rows)?;
    add_empty_rows(d.definition(), 1 + d.definition().params.len(), &mut rows)?;
    Ok(rows)
}

/// The graph of a body: what each node reads.
pub fn graph(alloc: Global, d: &Tables, sigs: &[InitSig]) -> Result<Graph, NoMemory>
    requires fits { fits d.now }
    ensures { IfOk result (λ g. g ≡ spec.rows d.now sigs.now) }
{
    let mut rows = first_rows(alloc, d, sigs)?;
    add_variable_rows(alloc, d, &mut rows)?;
    add_initial_rows(alloc, d, &mut rows)?;
    add_whole_rows(alloc, d, sigs, &mut rows)?;
    Ok(rows.finish())
}
