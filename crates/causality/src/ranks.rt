//! Numbers of items, by an order of the nodes.

ghost use Rattle.std.specs.Prelude.{◌≡◌, ◌≤◌, length, map, IfOk};
ghost use Rattle.causality.specs.Nodes.{counts, fits, total};
ghost use Rattle.causality.specs.Ranks as spec;

use crate::nodes::key_node;
use ls_base::{List, NoMemory};
use ls_places::{Definition, Key};
use ls_sig::Item;
use std::alloc::Global;

/// The place of each node in an order: filled from the end, so that the first place counts.
pub fn places(alloc: Global, order: &[u32], many: usize) -> Result<Vec<u32>, NoMemory>
    requires { length order.now ≤ 4294967295 }
    ensures places { IfOk result (λ at. spec.ArePlaces at.items order.now) }
    ensures all { IfOk result (λ at. length at.items ≡ many) }
{
    let mut at = vec![in alloc; 0; many]?;
    for k in 0..order.len() {
        let i = order.len() - 1 - k;
        let x = order[i] as usize;
        if x < many {
            at[x] = i as u32;
        }
    }
    Ok(at)
}

/// Items with the numbers of their rows.
pub fn ranks(
    alloc: Global,
    d: &Definition,
    at: &[u32],
    rows: &[(Item, Key)],
) -> Result<List<(Item, u32)>, NoMemory>
    requires fits { fits d.now }
    requires all { length at.now ≡ total (counts d.now) }
    ensures { IfOk result (λ r. r ≡ map (spec.ranked d.now at.now) rows.now) }
{
    let mut done = List::new(alloc);
    for row in rows {
        done.push((row.0, at[key_node(d, row.1) as usize]))?;
    }
    Ok(done)
}
