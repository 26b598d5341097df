//! Items that wait for one another, by a cycle of nodes.

ghost use Rattle.std.specs.Prelude.{◌≡◌, ◌<◌, ◌^◌, false, ◌++◌, length, IfOk, OnOk};
ghost use Rattle.causality.specs.Cycles as spec;
ghost use Rattle.causality.specs.Items as items;
ghost use Rattle.causality.specs.Nodes as nodes_spec;
ghost use Rattle.causality.specs.Nodes.{counts, fits, total};
ghost use Rattle.causality.specs.Table as table_spec;
ghost use Rattle.causality_rules.specs.Items as rules;
ghost use Rattle.causality_rules.specs.Laws.{ModesPaired, ResetsNested};
ghost use Rattle.causality_rules.specs.Reads.{reads};
ghost use Rattle.digraph.specs.Marks.{marked};
ghost use Rattle.digraph.specs.Numbering.{Cycle};

use crate::nodes::{Node, key_node, total_nodes};
use ls_base::{List, NoMemory};
use ls_places::{Definition, Frame, Key, Variable};
use ls_sig::Item;
use place_tables::nth;
use std::alloc::Global;

fn node_at(nodes: &[Node], x: u32) -> Node
    ensures { result ≡ nodes_spec.node_in nodes.now x }
{
    match nth(nodes, x as usize) {
        None => Node::Nothing,
        Some(node) => *node,
    }
}

fn add_row(node: Node, out: &mut List<Key>) -> Result<(), NoMemory>
    ensures { OnOk result (out.new ≡ out.old ++ spec.row_of node) }
{
    match node {
        Node::Nothing => Ok(()),
        Node::Row(k) => out.push(k),
        Node::Whole(_) => Ok(()),
    }
}

/// The rows among the nodes of a cycle.
pub fn cycle_rows(alloc: Global, nodes: &[Node], cycle: &[u32]) -> Result<List<Key>, NoMemory>
    ensures { IfOk result (λ r. r ≡ spec.rows_in nodes.now cycle.now) }
{
    let mut rows = List::new(alloc);
    for x in cycle {
        add_row(node_at(nodes, *x), &mut rows)?;
    }
    Ok(rows)
}

fn is_condition(k: Key) -> bool
    ensures { result ≡ rules.is_condition k }
{
    match k {
        Key::Var(_) => false,
        Key::Start(_) => false,
        Key::Name(_) => false,
        Key::Reset(_) => true,
    }
}

// Those that are no conditions of resets.
fn others(alloc: Global, rows: &[Key]) -> Result<List<Key>, NoMemory>
    ensures { IfOk result (λ r. r ≡ spec.others rules.is_condition rows.now) }
{
    let mut done = List::new(alloc);
    for k in rows {
        if !is_condition(*k) {
            done.push(*k)?;
        }
    }
    Ok(done)
}

// ---- the items of rows

// The item of each node that is the row of one.
fn table(alloc: Global, d: &Definition, rows: &[(Item, Key)]) -> Result<Vec<Option<Item>>, NoMemory>
    requires { fits d.now }
    ensures table { IfOk result (λ t. table_spec.IsTable d.now rows.now t.items) }
    ensures all { IfOk result (λ t. length t.items ≡ total (counts d.now)) }
{
    let many = total_nodes(d) as usize;
    let mut table = vec![in alloc; None; many]?;
    for row in rows {
        table[key_node(d, row.1) as usize] = Some(row.0);
    }
    Ok(table)
}

// The items of rows that are all those of items.
fn items_of(
    alloc: Global,
    d: &Definition,
    table: &[Option<Item>],
    all: &[Key],
) -> Result<List<Item>, NoMemory>
    requires fits { fits d.now }
    requires all { length table.now ≡ total (counts d.now) }
    requires table { table_spec.IsTable d.now (items.item_rows d.now) table.now }
    requires items { table_spec.AreItems d.now all.now }
    ensures { IfOk result (λ r. table_spec.AreOf d.now r all.now) }
{
    let mut done = List::new(alloc);
    for k in all {
        if let Some(item) = table[key_node(d, *k) as usize] {
            done.push(item)?;
        }
    }
    Ok(done)
}

// ---- where all rows are conditions

fn marks(alloc: Global, d: &Definition, rows: &[Key]) -> Result<Vec<bool>, NoMemory>
    ensures { IfOk result (λ m. m.items ≡ spec.marks_of d.now rows.now) }
{
    let mut marks = vec![in alloc; false; d.places.resets.len()]?;
    for k in rows {
        if let Key::Reset(r) = *k {
            if (r as usize) < marks.len() {
                marks[r as usize] = true;
            }
        }
    }
    Ok(marks)
}

fn is_marked(marks: &[bool], x: usize) -> bool
    ensures { result ≡ marked marks.now x }
{
    match marks.get(x) {
        None => false,
        Some(mark) => *mark,
    }
}

fn holds_marked(marks: &[bool], place: &[Frame]) -> bool
    ensures { result ≡ spec.holds_marked marks.now place.now }
{
    for frame in place {
        if let Frame::Reset(r) = frame {
            if is_marked(marks, *r as usize) {
                return true;
            }
        }
    }
    false
}

fn first_marked(marks: &[bool], vars: &[Variable]) -> Option<u32>
    requires { length vars.now < 2 ^ 32 }
    ensures { result ≡ spec.first_marked marks.now vars.now 0 }
{
    for (k, w) in vars.iter().enumerate() {
        if holds_marked(marks, w.place.as_slice()) {
            return Some(k as u32);
        }
    }
    None
}

// The first variable that stands inside one of these conditions.
fn inside(alloc: Global, d: &Definition, rows: &[Key]) -> Result<List<Item>, NoMemory>
    ensures { IfOk result (λ r. r ≡ spec.inside d.now rows.now) }
{
    let marks = marks(alloc, d, rows)?;
    let mut done = List::new(alloc);
    if let Some(x) = first_marked(&marks, d.places.vars.as_slice()) {
        done.push(Item::Var(x))?;
    }
    Ok(done)
}

/// Items that wait for one another, by a cycle of rows: those of its rows that are no conditions
/// of resets; where all are, a variable that stands inside one of these.
pub fn cyclic_items(
    alloc: Global,
    d: &Definition,
    all: &[(Item, Key)],
    rows: &[Key],
) -> Result<List<Item>, NoMemory>
    requires fits { fits d.now }
    requires nested { ResetsNested d.now }
    requires paired { ModesPaired false d.now.places.names }
    requires items { all.now ≡ items.item_rows d.now }
    requires cycle { Cycle (reads d.now) rows.now }
    ensures { IfOk result (λ r. rules.WaitsForItself d.now r) }
{
    let free = others(alloc, rows)?;
    if free.len() == 0 {
        return inside(alloc, d, rows);
    }
    let table = table(alloc, d, all)?;
    items_of(alloc, d, &table, free.as_slice())
}
