//! The order of a core's equations.

ghost use Rattle.std.specs.Prelude.{◌≡◌, [], ◌∷◌, ◌++◌, IfOk, OnOk, IsPermutation};
ghost use Rattle.core_lang.specs.Cores.{RanksRise};

use core_lang::{Core, CoreEq, CoreOut, Ordered};
use ls_base::{List, NoMemory, NoteCopy};
use std::alloc::Global;

// One more at the end.
fn push(eqs: &mut Vec<CoreEq>, e: CoreEq) -> Result<(), NoMemory>
    ensures { OnOk result (eqs.new.items ≡ eqs.old.items ++ e ∷ []) }
{
    match eqs.push(e) {
        Ok(()) => Ok(()),
        Err(_) => Err(NoMemory),
    }
}

// Copies of equations.
fn copied(alloc: Global, eqs: &[CoreEq]) -> Result<Vec<CoreEq>, NoMemory>
    ensures { IfOk result (λ copy. copy.items ≡ eqs.now) }
{
    let mut copy = Vec::new(alloc);
    for e in eqs {
        push(&mut copy, e.copy(alloc)?)?;
    }
    Ok(copy)
}

// Sorts equations by their ranks.
fn sort(eqs: &mut Vec<CoreEq>) -> Result<(), NoMemory>
    ensures same { IsPermutation eqs.old.items eqs.new.items }
    ensures rising { OnOk result (RanksRise eqs.new.items) }
{
    eqs.sort_by_key(|e| e.rank)?;
    Ok(())
}

// A vector as a list.
fn listed(alloc: Global, eqs: Vec<CoreEq>) -> Result<List<CoreEq>, NoMemory>
    ensures { IfOk result (λ list. list ≡ eqs.items) }
{
    let mut list = List::new(alloc);
    for e in eqs {
        list.push(e)?;
    }
    Ok(list)
}

// Copies of outputs.
fn copied_outputs(alloc: Global, outputs: &[CoreOut]) -> Result<List<CoreOut>, NoMemory>
    ensures { IfOk result (λ copy. copy ≡ outputs.now) }
{
    let mut copy = List::new(alloc);
    for out in outputs {
        copy.push(*out)?;
    }
    Ok(copy)
}

// The equations of a core by their ranks.
fn ranked(alloc: Global, eqs: &[CoreEq]) -> Result<List<CoreEq>, NoMemory>
    ensures same { IfOk result (λ list. IsPermutation eqs.now list) }
    ensures rising { IfOk result (λ list. RanksRise list) }
{
    let mut copy = copied(alloc, eqs)?;
    sort(&mut copy)?;
    listed(alloc, copy)
}

/// The core with its equations in an order in which each reads at once what stands before it. It is
/// refused for want of memory alone: ranks rise along each read, so there is such an order.
pub fn order(alloc: Global, core: &Core) -> Result<Ordered, NoMemory>
    ensures same { IfOk result (λ ordered. IsPermutation core.now.eqs ordered.core.eqs) }
    ensures inputs { IfOk result (λ ordered. ordered.core.inputs ≡ core.now.inputs) }
    ensures outputs { IfOk result (λ ordered. ordered.core.outputs ≡ core.now.outputs) }
{
    let eqs = ranked(alloc, core.eqs.as_slice())?;
    let inputs = core.inputs.copy(alloc)?;
    let outputs = copied_outputs(alloc, core.outputs.as_slice())?;
    Ok(Ordered {
        core: Core {
            eqs,
            inputs,
            outputs,
        },
    })
}
