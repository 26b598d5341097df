//! The conditions on the clocks of a definition.

ghost use Rattle.std.specs.Prelude.{◌≡◌, true, false, length, IfOk};
ghost use Rattle.clock_conditions.specs.Bounds as spec;
ghost use Rattle.clock_conditions.specs.Every.{every};
ghost use Rattle.clock_conditions.specs.Met.{Met, clocks, facts};

use crate::cycles::is_acyclic;
use crate::names::{are_around, are_public, lists, names_of};
use crate::sizes::{is_small, is_smaller};
use ls_ast::{Mark, Pat};
use ls_base::{List, NoMemory};
use ls_places::{Named, Variable};
use ls_sig::Note;
use ls_terms::ClockTerm;
use std::alloc::Global;

/// What the conditions are asked of: the notes of a definition's parameters and of its result, its
/// variables and clock names, and a clock for each of these.
#[derive(Drop)]
pub struct Bounds<'a> {
    pub params: &'a List<Pat>,
    pub marks: &'a List<Mark>,
    pub notes: &'a [Note],
    pub result: &'a Note,
    pub vars: &'a [Variable],
    pub names: &'a [Named],
    pub var_clocks: &'a [ClockTerm],
    pub block_clocks: &'a [ClockTerm],
}

/// Whether a clock mentions only names bound in lists around some arms.
fn is_within(
    alloc: Global,
    first: usize,
    lists: &[List<(u32, u32)>],
    here: &[(u32, u32)],
    ck: &ClockTerm,
) -> Result<bool, NoMemory>
    ensures { IfOk result (λ r. r ≡ spec.within first lists.now here.now ck.now) }
{
    let names = names_of(alloc, ck)?;
    Ok(are_around(here, names.as_slice(), first, lists))
}

/// Whether a clock mentions only Clock parameters.
fn is_public(alloc: Global, marks: &[Mark], ck: &ClockTerm) -> Result<bool, NoMemory>
    ensures { IfOk result (λ r. r ≡ spec.public marks.now ck.now) }
{
    let names = names_of(alloc, ck)?;
    Ok(are_public(marks, names.as_slice()))
}

/// Whether the clock of each variable mentions only names bound around its list.
fn vars_meet(
    alloc: Global,
    first: usize,
    lists: &[List<(u32, u32)>],
    vars: &[Variable],
    clocks: &[ClockTerm],
) -> Result<bool, NoMemory>
    ensures { IfOk result (λ r. r ≡ spec.vars_met first lists.now vars.now clocks.now) }
{
    for (x, variable) in vars.iter().enumerate() {
        match clocks.get(x) {
            None => return Ok(true),
            Some(ck) => {
                if !is_within(alloc, first, lists, variable.list.as_slice(), ck)? {
                    return Ok(false);
                }
            }
        }
    }
    Ok(true)
}

/// Whether the clock of a block is small enough and mentions only names bound around it.
fn block_meets(
    alloc: Global,
    first: usize,
    lists: &[List<(u32, u32)>],
    here: &[(u32, u32)],
    ck: &ClockTerm,
) -> Result<bool, NoMemory>
    ensures { IfOk result (λ r. r ≡ spec.block_met first lists.now here.now ck.now) }
{
    if !is_smaller(ck) {
        return Ok(false);
    }
    is_within(alloc, first, lists, here, ck)
}

/// Whether the clocks of all blocks do.
fn blocks_meet(
    alloc: Global,
    first: usize,
    lists: &[List<(u32, u32)>],
    clocks: &[ClockTerm],
) -> Result<bool, NoMemory>
    ensures { IfOk result (λ r. r ≡ spec.blocks_met first lists.now lists.now clocks.now) }
{
    for (j, here) in lists.iter().enumerate() {
        match clocks.get(j) {
            None => return Ok(true),
            Some(ck) => {
                if !block_meets(alloc, first, lists, here.as_slice(), ck)? {
                    return Ok(false);
                }
            }
        }
    }
    Ok(true)
}

/// Whether the clock of a parameter is within the limit and mentions only Clock parameters.
fn param_meets(alloc: Global, marks: &[Mark], note: &Note) -> Result<bool, NoMemory>
    ensures { IfOk result (λ r. r ≡ spec.param_met marks.now note.now) }
{
    if !is_small(&note.ck) {
        return Ok(false);
    }
    is_public(alloc, marks, &note.ck)
}

/// Whether the clocks of all parameters are.
fn params_meet(alloc: Global, marks: &[Mark], notes: &[Note]) -> Result<bool, NoMemory>
    ensures { IfOk result (λ r. r ≡ every (spec.param_met marks.now) notes.now) }
{
    for note in notes {
        if !param_meets(alloc, marks, note)? {
            return Ok(false);
        }
    }
    Ok(true)
}

/// Whether all clocks of variables and blocks meet the conditions.
fn local_meets(alloc: Global, b: &Bounds) -> Result<bool, NoMemory>
    ensures { IfOk result (λ r. r ≡ spec.local_met b.now) }
{
    let first = b.params.len();
    let lists = lists(alloc, b.vars, b.names)?;
    if !vars_meet(alloc, first, lists.as_slice(), b.vars, b.var_clocks)? {
        return Ok(false);
    }
    blocks_meet(alloc, first, lists.as_slice(), b.block_clocks)
}

/// Whether all clocks of the signature meet the conditions but for cycles.
fn signature_meets(alloc: Global, b: &Bounds) -> Result<bool, NoMemory>
    ensures { IfOk result (λ r. r ≡ spec.signature_met b.now) }
{
    let marks = b.marks.as_slice();
    if !params_meet(alloc, marks, b.notes)? {
        return Ok(false);
    }
    is_public(alloc, marks, &b.result.ck)
}

/// Whether the clocks of a definition meet the conditions: those of variables and blocks mention
/// only names bound in lists around them, those of the signature only Clock parameters, among which
/// none leads back to itself; all are within the limit, and that of a block below it. There is a
/// clock for each variable and for each clock name.
pub fn meets(alloc: Global, b: &Bounds) -> Result<bool, NoMemory>
    requires vars { length b.now.var_clocks.now ≡ length b.now.vars.now }
    requires blocks { length b.now.block_clocks.now ≡ length b.now.names.now }
    ensures met { IfOk result (λ r. r ≡ true → Met (facts b.now) (clocks b.now)) }
    ensures unmet { IfOk result (λ r. r ≡ false → Met (facts b.now) (clocks b.now) → ⊥) }
{
    if !local_meets(alloc, b)? {
        return Ok(false);
    }
    if !signature_meets(alloc, b)? {
        return Ok(false);
    }
    is_acyclic(alloc, b.marks, b.notes)
}
