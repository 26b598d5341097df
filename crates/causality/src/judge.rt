//! Whether a definition is causal: its items with numbers, or items that wait for one another.

ghost use Rattle.std.specs.Prelude.{false, IfOk};
ghost use Rattle.causality.specs.Decided.{Decided};
ghost use Rattle.causality.specs.Nodes.{fits};
ghost use Rattle.causality_rules.specs.Laws.{ModesPaired, ResetsNested};

use crate::cycles::{cycle_rows, cyclic_items};
use crate::graph::graph;
use crate::items::item_rows;
use crate::nodes::all_nodes;
use crate::ranks::{places, ranks};
use block_tables::BlockTables;
use digraph::Order;
use ls_base::{List, NoMemory};
use ls_sig::Item;
use std::alloc::Global;

/// What a definition is judged to be.
#[derive(Drop)]
pub enum Judgement {
    /// Causal, with a number for each item.
    Causal(List<(Item, u32)>),
    /// These items wait for one another.
    Cyclic(List<Item>),
}

/// Looks for an order of the rows in which each comes after those that it reads.
pub fn judge(alloc: Global, d: &BlockTables) -> Result<Judgement, NoMemory>
    requires fits { fits d.now }
    requires nested { ResetsNested d.now }
    requires paired { ModesPaired false d.now.places.names }
    ensures { IfOk result (Decided d.now) }
{
    let nodes = all_nodes(alloc, d.definition())?;
    let graph = graph(alloc, d, nodes.as_slice())?;
    let rows = item_rows(alloc, d)?;
    match graph.order(alloc)? {
        Order::Ordered(order) => {
            let at = places(alloc, &order, graph.nodes())?;
            let list = ranks(alloc, d.definition(), &at, rows.as_slice())?;
            Ok(Judgement::Causal(list))
        }
        Order::Cycle(cycle) => {
            let found = cycle_rows(alloc, nodes.as_slice(), &cycle)?;
            let items = cyclic_items(alloc, d.definition(), rows.as_slice(), found.as_slice())?;
            Ok(Judgement::Cyclic(items))
        }
    }
}
