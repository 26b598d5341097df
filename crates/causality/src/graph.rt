//! The graph of a body's reads.

ghost use Rattle.std.specs.Prelude.{◌≡◌, ◌++◌, IfOk};
ghost use Rattle.causality.specs.Nodes as nodes_spec;
ghost use Rattle.causality.specs.Nodes.{counts, fits};
ghost use Rattle.causality.specs.Rows as spec;

use crate::nodes::{Node, numbers, total_nodes};
use crate::rows::{add_keys, add_whole, add_wholes};
use block_tables::BlockTables;
use digraph::{Graph, Rows};
use ls_base::{List, NoMemory};
use ls_places::Key;
use std::alloc::Global;

fn key_row(alloc: Global, d: &BlockTables, k: Key) -> Result<List<u32>, NoMemory>
    requires { fits d.now }
    ensures { IfOk result (λ r. r ≡ spec.key_nodes d.now (spec.keys d.now k) ++ spec.whole_nodes d.now (spec.wholes d.now k)) }
{
    let mut keys = List::new(alloc);
    add_keys(alloc, d, k, &mut keys)?;
    let mut wholes = List::new(alloc);
    add_wholes(d, k, &mut wholes)?;
    numbers(alloc, d.definition(), keys.as_slice(), wholes.as_slice())
}

fn whole_row(alloc: Global, d: &BlockTables, k: u32) -> Result<List<u32>, NoMemory>
    requires { fits d.now }
    ensures { IfOk result (λ r. r ≡ spec.whole_row d.now k) }
{
    let mut keys = List::new(alloc);
    add_whole(d, k, &mut keys)?;
    numbers(alloc, d.definition(), keys.as_slice(), &[])
}

// What a node reads.
fn node_row(alloc: Global, d: &BlockTables, node: Node) -> Result<List<u32>, NoMemory>
    requires { fits d.now }
    ensures { IfOk result (λ r. r ≡ spec.node_row d.now node) }
{
    match node {
        Node::Nothing => Ok(List::new(alloc)),
        Node::Row(k) => key_row(alloc, d, k),
        Node::Whole(k) => whole_row(alloc, d, k),
    }
}

/// The graph of a body: what each node reads.
pub fn graph(alloc: Global, d: &BlockTables, nodes: &[Node]) -> Result<Graph, NoMemory>
    requires fits { fits d.now }
    requires nodes { nodes.now ≡ nodes_spec.all_nodes (counts d.now) }
    ensures { IfOk result (λ g. g ≡ spec.rows d.now) }
{
    let mut rows = Rows::new(alloc, total_nodes(d.definition()) as u32);
    for node in nodes {
        let row = node_row(alloc, d, *node)?;
        rows.add(row.as_slice())?;
    }
    Ok(rows.finish())
}
