//! The arms where clock variables are at home, and the clocks of automata, by the clocks that are
//! noted in a body.

ghost use Rattle.std.specs.Prelude.{◌≡◌, IfOk, OnOk};
ghost use Rattle.kahn_cells.specs.Homes as own;
ghost use Rattle.ls_places.specs.Search as spec;

use crate::clocks::clocks_in;
use crate::search::{arms, copy_arms};
use indexmap::IndexMap;
use ls_base::{List, NoMemory, NoteCopy};
use ls_places::Whole;
use ls_sig::Note;
use ls_terms::ClockTerm;
use std::alloc::Global;

/// The common beginning of two places.
fn common(alloc: Global, p: &[(u32, u32)], q: &[(u32, u32)]) -> Result<List<(u32, u32)>, NoMemory>
    ensures { IfOk result (λ r. r ≡ spec.common p.now q.now) }
{
    let mut done = List::new(alloc);
    let mut rest = q;
    for a in p {
        match rest {
            [] => return Ok(done),
            [c, more @ ..] => {
                if a.0 != c.0 || a.1 != c.1 {
                    return Ok(done);
                }
                done.push(*a)?;
                rest = more;
            }
        }
    }
    Ok(done)
}

/// The arms around the block with the clock name `m`.
fn outside(m: u32, p: &[(u32, u32)]) -> &[(u32, u32)]
    ensures { result.now ≡ spec.outside m p.now }
{
    for i in 0..p.len() {
        if p[i].0 == m {
            return &p[..i];
        }
    }
    p
}

/// One more place where a clock variable occurs.
fn add_occurrence(
    alloc: Global,
    w: u32,
    p: &[(u32, u32)],
    homes: &mut IndexMap<u32, List<(u32, u32)>>,
) -> Result<(), NoMemory>
    ensures { OnOk result (own.Narrows homes.old (own.occurs w p.now) homes.new) }
{
    let home = match homes.get(&w) {
        None => copy_arms(alloc, p)?,
        Some(q) => common(alloc, q.as_slice(), p)?,
    };
    match homes.insert(w, home) {
        Ok(_) => Ok(()),
        Err(_) => Err(NoMemory),
    }
}

#[cycle(occurrences)]
fn add_all_occurrences(
    alloc: Global,
    all: &[ClockTerm],
    p: &[(u32, u32)],
    homes: &mut IndexMap<u32, List<(u32, u32)>>,
) -> Result<(), NoMemory>
    ensures { OnOk result (own.Narrows homes.old (own.all_occur all.now p.now) homes.new) }
{
    for ck in all {
        add_occurrences(alloc, ck, p, homes)?;
    }
    Ok(())
}

/// Where the variables of a clock occur that is noted at a place.
#[cycle(occurrences)]
fn add_occurrences(
    alloc: Global,
    ck: &ClockTerm,
    p: &[(u32, u32)],
    homes: &mut IndexMap<u32, List<(u32, u32)>>,
) -> Result<(), NoMemory>
    ensures { OnOk result (own.Narrows homes.old (own.occur ck.now p.now) homes.new) }
{
    match ck {
        ClockTerm::Var(w) => add_occurrence(alloc, *w, p, homes),
        ClockTerm::On(inner, m, _) => add_occurrences(alloc, inner.get(), outside(*m, p), homes),
        ClockTerm::Pointwise => Ok(()),
        ClockTerm::Arrow(all, to) => {
            add_all_occurrences(alloc, all.as_slice(), p, homes)?;
            add_occurrences(alloc, to.get(), p, homes)
        }
    }
}

/// Where clock variables occur in the clocks that are noted at a place.
fn add_places(
    alloc: Global,
    all: &[ClockTerm],
    p: &[(u32, u32)],
    homes: &mut IndexMap<u32, List<(u32, u32)>>,
) -> Result<(), NoMemory>
    ensures { OnOk result (own.Narrows homes.old (own.terms_occur all.now p.now) homes.new) }
{
    for ck in all {
        add_occurrences(alloc, ck, p, homes)?;
    }
    Ok(())
}

/// The smallest arm around all occurrences of each clock variable.
pub fn homes(
    alloc: Global,
    all: &[Whole<Note>],
) -> Result<IndexMap<u32, List<(u32, u32)>>, NoMemory>
    ensures { IfOk result (λ r. own.AreHomes r all.now) }
{
    let mut done = IndexMap::new(alloc);
    for whole in all {
        let clocks = clocks_in(alloc, &whole.expr)?;
        let p = arms(alloc, whole.place.as_slice())?;
        add_places(alloc, clocks.as_slice(), p.as_slice(), &mut done)?;
    }
    Ok(done)
}

/// One more clock that is sampled on the clock name `m`, of which the first counts.
fn add_sampled(
    alloc: Global,
    m: u32,
    ck: &ClockTerm,
    clocks: &mut IndexMap<u32, ClockTerm>,
) -> Result<(), NoMemory>
    ensures { OnOk result (own.Notes clocks.old (own.sampled m ck.now) clocks.new) }
{
    if clocks.get(&m).is_some() {
        return Ok(());
    }
    let copy = ck.copy(alloc)?;
    match clocks.insert(m, copy) {
        Ok(_) => Ok(()),
        Err(_) => Err(NoMemory),
    }
}

/// The clocks below the samplings of a clock, by the names that it is sampled on.
fn add_below(
    alloc: Global,
    ck: &ClockTerm,
    clocks: &mut IndexMap<u32, ClockTerm>,
) -> Result<(), NoMemory>
    ensures { OnOk result (own.Notes clocks.old (own.below ck.now) clocks.new) }
{
    match ck {
        ClockTerm::On(inner, m, _) => {
            add_sampled(alloc, *m, inner.get(), clocks)?;
            add_below(alloc, inner.get(), clocks)
        }
        ClockTerm::Var(_) => Ok(()),
        ClockTerm::Pointwise => Ok(()),
        ClockTerm::Arrow(_, _) => Ok(()),
    }
}

fn add_all_below(
    alloc: Global,
    all: &[ClockTerm],
    clocks: &mut IndexMap<u32, ClockTerm>,
) -> Result<(), NoMemory>
    ensures { OnOk result (own.Notes clocks.old (own.noted all.now) clocks.new) }
{
    for ck in all {
        add_below(alloc, ck, clocks)?;
    }
    Ok(())
}

/// The clock of each block that a noted clock is sampled on: the first that is.
pub fn block_clocks(
    alloc: Global,
    all: &[Whole<Note>],
) -> Result<IndexMap<u32, ClockTerm>, NoMemory>
    ensures { IfOk result (λ r. own.AreBlockClocks r all.now) }
{
    let mut done = IndexMap::new(alloc);
    for whole in all {
        let clocks = clocks_in(alloc, &whole.expr)?;
        add_all_below(alloc, clocks.as_slice(), &mut done)?;
    }
    Ok(done)
}
