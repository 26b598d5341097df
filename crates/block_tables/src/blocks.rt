//! The clocks of blocks, by the clocks that are noted in a body.

ghost use Rattle.std.specs.Prelude.{◌≡◌, IfOk, OnOk};
ghost use Rattle.block_tables.specs.Blocks as own;

use crate::clocks::clocks_in;
use indexmap::IndexMap;
use ls_base::{NoMemory, NoteCopy};
use ls_places::Whole;
use ls_sig::Note;
use ls_terms::ClockTerm;
use std::alloc::Global;

/// One more clock that is sampled on the clock name `m`, of which the first counts.
fn add_sampled(
    alloc: Global,
    m: u32,
    ck: &ClockTerm,
    clocks: &mut IndexMap<u32, ClockTerm>,
) -> Result<(), NoMemory>
    ensures { OnOk result (own.Notes clocks.old (own.sampled m ck.now) clocks.new) }
{
    if clocks.get(&m).is_some() {
        return Ok(());
    }
    let copy = ck.copy(alloc)?;
    match clocks.insert(m, copy) {
        Ok(_) => Ok(()),
        Err(_) => Err(NoMemory),
    }
}

/// The clocks below the samplings of a clock, by the names that it is sampled on.
fn add_below(
    alloc: Global,
    ck: &ClockTerm,
    clocks: &mut IndexMap<u32, ClockTerm>,
) -> Result<(), NoMemory>
    ensures { OnOk result (own.Notes clocks.old (own.below ck.now) clocks.new) }
{
    match ck {
        ClockTerm::On(inner, m, _) => {
            add_sampled(alloc, *m, inner.get(), clocks)?;
            add_below(alloc, inner.get(), clocks)
        }
        ClockTerm::Var(_) => Ok(()),
        ClockTerm::Pointwise => Ok(()),
        ClockTerm::Arrow(_, _) => Ok(()),
    }
}

fn add_all_below(
    alloc: Global,
    all: &[ClockTerm],
    clocks: &mut IndexMap<u32, ClockTerm>,
) -> Result<(), NoMemory>
    ensures { OnOk result (own.Notes clocks.old (own.noted all.now) clocks.new) }
{
    for ck in all {
        add_below(alloc, ck, clocks)?;
    }
    Ok(())
}

/// The clock of each block that a noted clock is sampled on: the first that is.
pub fn block_clocks(
    alloc: Global,
    all: &[Whole<Note>],
) -> Result<IndexMap<u32, ClockTerm>, NoMemory>
    ensures { IfOk result (λ r. own.AreBlockClocks r all.now) }
{
    let mut done = IndexMap::new(alloc);
    for whole in all {
        let clocks = clocks_in(alloc, &whole.expr)?;
        add_all_below(alloc, clocks.as_slice(), &mut done)?;
    }
    Ok(done)
}
