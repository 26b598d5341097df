//! The nodes of the graph of a body's reads.

ghost use Rattle.std.specs.Prelude.{◌≡◌, ◌+◌, ◌<◌, ◌^◌, ◌++◌, map, IfOk, OnOk};
ghost use Rattle.causality.specs.Made as made;
ghost use Rattle.causality.specs.Nodes as spec;
ghost use Rattle.causality.specs.Nodes.{counts, fits};
ghost use Rattle.causality.specs.Rows as rows;
ghost use Rattle.ls_places.specs.Search.{count_up};
ghost use Rattle.ls_places.specs.declared.definition.Key.TheVariants as key;

use ls_base::{List, NoMemory};
use ls_places::{Definition, Key};
use std::alloc::Global;

/// What stands at a node: a row, or a whole expression.
#[derive(Clone, Copy)]
pub enum Node {
    Nothing,
    Row(Key),
    Whole(u32),
}

/// What is numbered.
#[derive(Clone, Copy)]
pub enum Kind {
    Var,
    Start,
    Name,
    Reset,
    Whole,
}

// The number of what is not there.
const NOTHING: u32 = 0;

/// The number of nodes.
pub fn total_nodes(d: &Definition) -> u64
    ensures { result ≡ spec.total (counts d.now) }
{
    let vars = d.places.vars.len() as u64;
    let names = d.places.names.len() as u64;
    let resets = d.places.resets.len() as u64;
    let exprs = d.places.exprs.len() as u64;
    1 + vars + vars + names + resets + exprs
}

// ---- the number of a node

fn var_node(d: &Definition, k: u32) -> u32
    requires { fits d.now }
    ensures { result ≡ spec.key_node (counts d.now) (key.Var k) }
{
    if (k as usize) < d.places.vars.len() {
        1 + k
    } else {
        NOTHING
    }
}

fn start_node(d: &Definition, k: u32) -> u32
    requires { fits d.now }
    ensures { result ≡ spec.key_node (counts d.now) (key.Start k) }
{
    if (k as usize) < d.places.vars.len() {
        1 + d.places.vars.len() as u32 + k
    } else {
        NOTHING
    }
}

fn name_node(d: &Definition, m: u32) -> u32
    requires { fits d.now }
    ensures { result ≡ spec.key_node (counts d.now) (key.Name m) }
{
    let first = d.params.len();
    if (m as usize) < first {
        return NOTHING;
    }
    if (m as usize) - first < d.places.names.len() {
        let vars = d.places.vars.len() as u32;
        1 + vars + vars + (m - first as u32)
    } else {
        NOTHING
    }
}

fn reset_node(d: &Definition, r: u32) -> u32
    requires { fits d.now }
    ensures { result ≡ spec.key_node (counts d.now) (key.Reset r) }
{
    if (r as usize) < d.places.resets.len() {
        let vars = d.places.vars.len() as u32;
        1 + vars + vars + d.places.names.len() as u32 + r
    } else {
        NOTHING
    }
}

/// The number of a row.
pub fn key_node(d: &Definition, k: Key) -> u32
    requires { fits d.now }
    ensures { result ≡ spec.key_node (counts d.now) k }
{
    match k {
        Key::Var(x) => var_node(d, x),
        Key::Start(x) => start_node(d, x),
        Key::Name(m) => name_node(d, m),
        Key::Reset(r) => reset_node(d, r),
    }
}

/// The number of a whole expression.
pub fn whole_node(d: &Definition, k: u32) -> u32
    requires { fits d.now }
    ensures { result ≡ spec.whole_node (counts d.now) k }
{
    if (k as usize) < d.places.exprs.len() {
        let vars = d.places.vars.len() as u32;
        1 + vars + vars + d.places.names.len() as u32 + d.places.resets.len() as u32 + k
    } else {
        NOTHING
    }
}

fn add_key_nodes(d: &Definition, all: &[Key], out: &mut List<u32>) -> Result<(), NoMemory>
    requires { fits d.now }
    ensures { OnOk result (out.new ≡ out.old ++ rows.key_nodes d.now all.now) }
{
    for k in all {
        out.push(key_node(d, *k))?;
    }
    Ok(())
}

fn add_whole_nodes(d: &Definition, all: &[u32], out: &mut List<u32>) -> Result<(), NoMemory>
    requires { fits d.now }
    ensures { OnOk result (out.new ≡ out.old ++ rows.whole_nodes d.now all.now) }
{
    for k in all {
        out.push(whole_node(d, *k))?;
    }
    Ok(())
}

/// The numbers of some rows, and of some whole expressions.
pub fn numbers(
    alloc: Global,
    d: &Definition,
    keys: &[Key],
    wholes: &[u32],
) -> Result<List<u32>, NoMemory>
    requires { fits d.now }
    ensures { IfOk result (λ r. r ≡ rows.key_nodes d.now keys.now ++ rows.whole_nodes d.now wholes.now) }
{
    let mut out = List::new(alloc);
    add_key_nodes(d, keys, &mut out)?;
    add_whole_nodes(d, wholes, &mut out)?;
    Ok(out)
}

// ---- all nodes

fn node_of(kind: Kind, k: u32) -> Node
    ensures { result ≡ made.node_of kind k }
{
    match kind {
        Kind::Var => Node::Row(Key::Var(k)),
        Kind::Start => Node::Row(Key::Start(k)),
        Kind::Name => Node::Row(Key::Name(k)),
        Kind::Reset => Node::Row(Key::Reset(k)),
        Kind::Whole => Node::Whole(k),
    }
}

// So many nodes of a kind, with the numbers from the first on.
fn add_made(kind: Kind, first: u32, many: u32, out: &mut List<Node>) -> Result<(), NoMemory>
    requires { first + many < 2 ^ 32 }
    ensures { OnOk result (out.new ≡ out.old ++ map (made.node_of kind) (count_up many first)) }
{
    for i in 0..many {
        out.push(node_of(kind, first + i))?;
    }
    Ok(())
}

/// What stands at each node.
pub fn all_nodes(alloc: Global, d: &Definition) -> Result<List<Node>, NoMemory>
    requires { fits d.now }
    ensures { IfOk result (λ r. r ≡ spec.all_nodes (counts d.now)) }
{
    let mut out = List::new(alloc);
    out.push(Node::Nothing)?;
    let vars = d.places.vars.len() as u32;
    add_made(Kind::Var, 0, vars, &mut out)?;
    add_made(Kind::Start, 0, vars, &mut out)?;
    add_made(
        Kind::Name,
        d.params.len() as u32,
        d.places.names.len() as u32,
        &mut out,
    )?;
    add_made(Kind::Reset, 0, d.places.resets.len() as u32, &mut out)?;
    add_made(Kind::Whole, 0, d.places.exprs.len() as u32, &mut out)?;
    Ok(out)
}
