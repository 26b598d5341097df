//! What a block keeps of each of its arms.

ghost use Rattle.std.specs.Prelude.{◌≡◌, IfOk, map, option_map};
ghost use Rattle.ls_places.specs.Blocks as spec;
ghost use Rattle.ls_places.specs.Places.{named_case};

use crate::signals::CasePlaces;
use ls_ast::{Arm, Test};
use ls_base::{List, Name, NoMemory};
use std::alloc::Global;

fn case_place<C: CasePlaces>(case: Option<Name>, cases: &C) -> Option<u32>
    ensures { result ≡ named_case (C.place cases.now) (option_map (λ c. c.0) case) }
{
    match case {
        None => None,
        Some(name) => cases.place(name.0),
    }
}

/// The place of the constructor of each arm.
pub fn cases_of<N, C: CasePlaces>(
    alloc: Global,
    all: &[Arm<N>],
    cases: &C,
) -> Result<List<Option<u32>>, NoMemory>
    ensures { IfOk result (λ r. r ≡ map (spec.case_of (C.place cases.now)) all.now) }
{
    let mut done = List::new(alloc);
    for arm in all {
        done.push(case_place(arm.case, cases))?;
    }
    Ok(done)
}

/// The name of the signal of each test.
pub fn signals_of<N>(alloc: Global, all: &[Test<N>]) -> Result<List<u32>, NoMemory>
    ensures { IfOk result (λ r. r ≡ map spec.signal_of all.now) }
{
    let mut done = List::new(alloc);
    for test in all {
        done.push(test.signal.0)?;
    }
    Ok(done)
}
