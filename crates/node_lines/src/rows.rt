//! What lines give to the parameters of a node.

ghost use Rattle.std.specs.Prelude.{◌≡◌, IfOk, Some, drop, map, slice_get};
ghost use Rattle.node_lines.specs.Arguments as spec;
ghost use Rattle.node_lines.specs.Starts as places;

use crate::arguments::{argument_of, is_on};
use crate::fields::{asked, starts};
use line_io::Cell;
use ls_base::{List, NoMemory};
use ls_sig::Sig;
use ls_terms::{ClockTerm, TypeTerm};
use ls_value::Leaf;
use std::alloc::Global;

/// The cells of a line from a place on.
fn from(line: &[Cell], at: u32) -> &[Cell]
    ensures { result.now ≡ drop at line.now }
{
    let at = at as usize;
    if at < line.len() { &line[at..] } else { &[] }
}

/// The cells of a parameter of a type, on a clock that asks this, whose fields begin at a place.
fn cells_at(
    alloc: Global,
    t: &TypeTerm,
    on: &[(u32, Leaf)],
    at: u32,
    lines: &[List<Cell>],
) -> Result<List<Option<kahn_model::Cell>>, NoMemory>
    ensures { IfOk result (λ r. r ≡ map (spec.cell_in t.now on.now at) lines.now) }
{
    let mut done = List::new(alloc);
    for line in lines {
        let here = is_on(line.as_slice(), on);
        done.push(Some(argument_of(alloc, t, here, from(line.as_slice(), at))?))?;
    }
    Ok(done)
}

/// So many cells that are not known.
fn unknown(alloc: Global, lines: &[List<Cell>]) -> Result<List<Option<kahn_model::Cell>>, NoMemory>
    ensures { IfOk result (λ r. r ≡ map places.nowhere lines.now) }
{
    let mut done = List::new(alloc);
    for _line in lines {
        done.push(None)?;
    }
    Ok(done)
}

/// The cells of the parameter `m`, which has this type and this clock, in some lines.
fn clocked(
    alloc: Global,
    params: &[TypeTerm],
    starts: &[u32],
    t: &TypeTerm,
    ck: &ClockTerm,
    m: usize,
    lines: &[List<Cell>],
) -> Result<List<Option<kahn_model::Cell>>, NoMemory>
    requires begin { starts.now ≡ places.starts params.now }
    requires here { slice_get params.now m ≡ Some t.now }
    ensures { IfOk result (λ r. r ≡ map (spec.cell_of params.now m t.now ck.now) lines.now) }
{
    let on = asked(alloc, params, starts, ck)?;
    match starts.get(m) {
        None => unreachable!(),
        Some(at) => cells_at(alloc, t, on.as_slice(), *at, lines),
    }
}

/// The cells of the parameter `m` in some lines.
fn column(
    alloc: Global,
    params: &[TypeTerm],
    clocks: &[ClockTerm],
    starts: &[u32],
    m: usize,
    lines: &[List<Cell>],
) -> Result<List<Option<kahn_model::Cell>>, NoMemory>
    requires { starts.now ≡ places.starts params.now }
    ensures { IfOk result (λ r. r ≡ spec.column params.now clocks.now lines.now m) }
{
    match params.get(m) {
        None => unknown(alloc, lines),
        Some(t) => match clocks.get(m) {
            None => unknown(alloc, lines),
            Some(ck) => clocked(alloc, params, starts, t, ck, m, lines),
        },
    }
}

/// What lines give to the parameters of a node: for each parameter its cells in these lines, one
/// for each.
#[tactic(auto, using(crate::proofs::Lists::one_more))]
pub fn columns(
    alloc: Global,
    sig: &Sig,
    lines: &[List<Cell>],
) -> Result<List<List<Option<kahn_model::Cell>>>, NoMemory>
    ensures { IfOk result (λ r. r ≡ spec.columns sig.now.params sig.now.clocks lines.now) }
{
    let params = sig.params.as_slice();
    let starts = starts(alloc, params)?;
    let mut done = List::new(alloc);
    for m in 0..params.len() {
        done.push(column(
            alloc,
            params,
            sig.clocks.as_slice(),
            starts.as_slice(),
            m,
            lines,
        )?)?;
    }
    Ok(done)
}
