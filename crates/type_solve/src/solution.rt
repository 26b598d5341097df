//! Most general types that meet a list of demands.

ghost use Rattle.std.specs.Prelude.{◌≡◌, ◌≤◌, IfOk, IsErrOf};
ghost use Rattle.term_unify.specs.Terms.{first};
ghost use Rattle.type_solve.specs.Solution as spec;

use crate::pairs::{all_pairs, widths};
use crate::terms::is_data_term;
use ls_base::{List, NoMemory};
use ls_terms::TypeTerm;
use std::alloc::Global;
use term_unify::{Subst, UnifyFault, unify_free};
use type_rules::Demand;

/// What stands for the variables of some demands, of which the first `own` are the demands' own.
#[derive(Drop)]
pub struct Solution {
    pub own: u32,
    pub by: Subst<TypeTerm>,
}

#[derive(Clone, Copy, Debug, PartialEq, Eq)]
pub enum SolveFault {
    /// No types within the limit meet the demands.
    Unsolved,
    NoMemory,
}

impl From<NoMemory> for SolveFault {
    ghost use Rattle.std.specs.Prelude.{◌≡◌};
    ghost use Rattle.type_solve.specs.declared.solution.SolveFault.TheVariants.{NoMemory as OutOfMemory};

    ghost from_gives = { λ _ e. e ≡ OutOfMemory };

    fn from(_error: NoMemory) -> SolveFault {
        SolveFault::NoMemory
    }
}

/// Whether what stands for each of the first variables is data.
fn are_data(own: u32, by: &Subst<TypeTerm>) -> bool
    ensures { result ≡ spec.are_data own (first by.now.list) }
{
    for x in 0..own {
        if let Some(value) = by.get(x) {
            if !is_data_term(value) {
                return false;
            }
        }
    }
    true
}

/// The most general types that meet the demands, with at most so many nodes each.
pub fn solve(alloc: Global, demands: &List<Demand<u32>>, limit: u32) -> Result<Solution, SolveFault>
    requires { 1 ≤ limit }
    ensures solved { IfOk result (λ r. spec.Solves demands.now limit r.own (first r.by.list)) }
    ensures unsolved { IsErrOf result SolveFault.Unsolved → spec.IsUnsolvable demands.now limit }
{
    let own = widths(demands.as_slice())?;
    let pairs = all_pairs(alloc, own, demands.as_slice())?;
    match unify_free(alloc, &pairs, limit) {
        Ok(by) => {
            if are_data(own, &by) {
                Ok(Solution { own, by })
            } else {
                Err(SolveFault::Unsolved)
            }
        }
        Err(UnifyFault::Clash) => Err(SolveFault::Unsolved),
        Err(UnifyFault::NoMemory) => Err(SolveFault::NoMemory),
    }
}
