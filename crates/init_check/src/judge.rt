//! Whether a definition is initialised, and its signature.

ghost use Rattle.std.specs.Prelude.{◌≡◌, ℕ, ◌+◌, ◌<◌, length, IfOk, OnOk};
ghost use Rattle.digraph.specs.Marks.{marked};
ghost use Rattle.init_check.specs.Judged as own;
ghost use Rattle.init_check.specs.Walks.{fits};
ghost use Rattle.init_rules.specs.Nodes.{Standing, counts, whole_node as node_of_whole};
ghost use Rattle.init_rules.specs.Searches as spec;

use crate::graph::graph;
use crate::nodes::{ALWAYS, WRONG, whole_node};
use ls_base::{List, NoMemory};
use ls_places::Definition;
use ls_sig::InitSig;
use place_tables::Tables;
use std::alloc::Global;

fn is_marked(marks: &[bool], x: usize) -> bool
    ensures { result ≡ marked marks.now x }
{
    match marks.get(x) {
        None => false,
        Some(mark) => *mark,
    }
}

fn is_param_marked(d: &Definition, marks: &[bool], k: usize) -> bool
    ensures { result ≡ spec.param_marked (counts d.now) marks.now k }
{
    k < d.params.len() && is_marked(marks, 3 + k)
}

// Which parameters may be 1: those of data that do not flow where 0 has to be.
fn may_bits(
    alloc: Global,
    d: &Definition,
    wrong: &[bool],
    known: &[bool],
) -> Result<List<bool>, NoMemory>
    ensures { IfOk result (λ r. r ≡ spec.may_bits (counts d.now) wrong.now known.now 0) }
{
    let mut done = List::new(alloc);
    for (k, is_data) in known.iter().enumerate() {
        done.push(*is_data && !is_param_marked(d, wrong, k))?;
    }
    Ok(done)
}

// Which of them reach the result.
fn reach_bits(
    alloc: Global,
    d: &Definition,
    wrong: &[bool],
    out: &[bool],
    known: &[bool],
) -> Result<List<bool>, NoMemory>
    ensures { IfOk result (λ r. r ≡ spec.reach_bits (counts d.now) wrong.now out.now known.now 0) }
{
    let own = is_marked(out, ALWAYS as usize);
    let mut done = List::new(alloc);
    for (k, is_data) in known.iter().enumerate() {
        let may = *is_data && !is_param_marked(d, wrong, k);
        done.push(may && (own || is_param_marked(d, out, k)))?;
    }
    Ok(done)
}

fn signature(
    alloc: Global,
    d: &Definition,
    wrong: &[bool],
    out: &[bool],
    known: &[bool],
) -> Result<InitSig, NoMemory>
    ensures { IfOk result (λ r. r ≡ spec.signature (counts d.now) wrong.now out.now known.now) }
{
    Ok(InitSig {
        may: may_bits(alloc, d, wrong, known)?,
        reaches: reach_bits(alloc, d, wrong, out, known)?,
        own: is_marked(out, ALWAYS as usize),
    })
}

/// The signature of a definition whose parameters of these places are data, if it is initialised.
/// Two searches in its graph tell it.
pub fn decide(
    alloc: Global,
    d: &Tables,
    sigs: &[InitSig],
    known: &[bool],
) -> Result<Option<InitSig>, NoMemory>
    requires fits { fits d.now }
    requires stands { Standing d.now }
    requires params { length known.now ≡ length d.now.params }
    ensures { IfOk result (own.Decided d.now sigs.now known.now) }
{
    let graph = graph(alloc, d, sigs)?;
    let wrong = graph.reached(alloc, &[WRONG])?;
    if is_marked(&wrong, ALWAYS as usize) {
        return Ok(None);
    }
    let last = d.definition().places.exprs.len() - 1;
    let result = whole_node(d.definition(), last as u32);
    let out = graph.reached(alloc, &[result])?;
    Ok(Some(signature(alloc, d.definition(), &wrong, &out, known)?))
}
