//! Cycles among the clock names of parameters.

ghost use Rattle.std.specs.Prelude.{◌≡◌, true, false, IfOk};
ghost use Rattle.std.specs.Option.{option_copied};
ghost use Rattle.clock_conditions.specs.Bounds as spec;
ghost use Rattle.clock_conditions.specs.Every.{every};
ghost use Rattle.clock_conditions.specs.Met.{IsRanked};

use crate::names::{is_clock_parameter, names_of, nth};
use digraph::{Graph, Order, Rows};
use ls_ast::Mark;
use ls_base::{List, NoMemory};
use ls_sig::Note;
use std::alloc::Global;

/// The names that the clock of a Clock parameter mentions.
fn row(alloc: Global, marks: &[Mark], i: u32, note: Option<&Note>) -> Result<List<u32>, NoMemory>
    ensures { IfOk result (λ r. r ≡ spec.row marks.now i (option_copied note.entry)) }
{
    match note {
        None => Ok(List::new(alloc)),
        Some(note) => {
            if is_clock_parameter(marks, i) {
                names_of(alloc, &note.ck)
            } else {
                Ok(List::new(alloc))
            }
        }
    }
}

/// For each parameter what its clock mentions, if it is a Clock parameter.
fn graph(alloc: Global, marks: &List<Mark>, notes: &[Note]) -> Result<Graph, NoMemory>
    requires { every (spec.param_met marks.now) notes.now ≡ true }
    ensures { IfOk result (λ g. g ≡ spec.rows marks.now notes.now marks.now 0) }
{
    let mut rows = Rows::new(alloc, marks.len() as u32);
    let all = marks.as_slice();
    for (i, mark) in all.iter().enumerate() {
        prove!(*mark == *mark);
        let row = row(alloc, all, i as u32, nth(notes, i))?;
        rows.add(row.as_slice())?;
    }
    Ok(rows.finish())
}

/// Whether no clock of a Clock parameter leads back to it through those that are mentioned.
pub fn is_acyclic(alloc: Global, marks: &List<Mark>, notes: &[Note]) -> Result<bool, NoMemory>
    requires { every (spec.param_met marks.now) notes.now ≡ true }
    ensures ranked { IfOk result (λ r. r ≡ true → IsRanked marks.now notes.now) }
    ensures turning { IfOk result (λ r. r ≡ false → IsRanked marks.now notes.now → ⊥) }
{
    let graph = graph(alloc, marks, notes)?;
    match graph.order(alloc)? {
        Order::Ordered(_) => Ok(true),
        Order::Cycle(_) => Ok(false),
    }
}
