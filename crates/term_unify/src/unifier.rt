//! Most general unifiers.

ghost use Rattle.std.specs.Prelude.{◌≡◌, ℕ, ◌≤◌, true, Option, IfOk, IsErrOf, All};
ghost use Rattle.term_unify.specs.Terms.{first};
ghost use Rattle.term_unify.specs.Binding.{HoldNoneListed, ListsOnce};
ghost use Rattle.term_unify.specs.Graph.{taken, Unifies, IsAdmissible, IsBounded, IsAllowed, IsInstanceOf};

use crate::graph::Graph;
use crate::laws::Term;
use crate::subst::Subst;
use ls_base::{List, NoMemory};
use std::alloc::{AllocError, AllocFailed, Global};

/// Pairs of terms that are to be made equal.
#[derive(Debug, Drop)]
pub struct Pairs<T> {
    pub list: List<(T, T)>,
}

/// Why there is no unifier.
#[derive(Clone, Copy, Debug, PartialEq, Eq)]
pub enum UnifyFault {
    /// No unifier gives each variable a value that may stand, of at most as many nodes as allowed.
    Clash,
    NoMemory,
}

impl From<AllocError> for UnifyFault {
    ghost use Rattle.std.specs.Prelude.{◌≡◌};
    ghost use Rattle.term_unify.specs.declared.unifier.UnifyFault.TheVariants.{NoMemory as OutOfMemory};

    ghost from_gives = { λ _ e. e ≡ OutOfMemory };

    fn from(_error: AllocError) -> UnifyFault {
        UnifyFault::NoMemory
    }
}

impl<T: Drop> From<AllocFailed<T>> for UnifyFault {
    ghost use Rattle.std.specs.Prelude.{◌≡◌};
    ghost use Rattle.term_unify.specs.declared.unifier.UnifyFault.TheVariants.{NoMemory as OutOfMemory};

    ghost from_gives = { λ _ e. e ≡ OutOfMemory };

    fn from(_error: AllocFailed<T>) -> UnifyFault {
        UnifyFault::NoMemory
    }
}

impl From<NoMemory> for UnifyFault {
    ghost use Rattle.std.specs.Prelude.{◌≡◌};
    ghost use Rattle.term_unify.specs.declared.unifier.UnifyFault.TheVariants.{NoMemory as OutOfMemory};

    ghost from_gives = { λ _ e. e ≡ OutOfMemory };

    fn from(_error: NoMemory) -> UnifyFault {
        UnifyFault::NoMemory
    }
}

/// What the two public entries share: whether the variables are free says whether every term may
/// take the place of one.
fn solve<T: Term>(
    alloc: Global,
    pairs: &Pairs<T>,
    free: bool,
    limit: u32,
) -> Result<Subst<T>, UnifyFault>
    requires { 1 ≤ limit }
    ensures unifier { IfOk result (λ s. Unifies T.Term (first s.list) pairs.now.list) }
    ensures general { IfOk result (λ s. (by : ℕ → Option T) → Unifies T.Term by pairs.now.list → IsInstanceOf T.Term by (first s.list)) }
    ensures once { IfOk result (λ s. ListsOnce s.list) }
    ensures done { IfOk result (λ s. HoldNoneListed T.Term s.list) }
    ensures small { IfOk result (λ s. All (λ e. T.size e.1 ≤ limit) s.list) }
    ensures stand { IfOk result (λ s. All (λ e. taken T.Term free e.1 ≡ true) s.list) }
    ensures clash { IsErrOf result UnifyFault.Clash → (by : ℕ → Option T) → Unifies T.Term by pairs.now.list → IsAllowed T.Term free limit by → ⊥ }
{
    let (graph, equal) = Graph::of(alloc, pairs)?;
    let classes = graph.classes(alloc, equal)?;
    let order = graph.order(alloc, &classes, free, limit)?;
    let groups = graph.groups(alloc, &classes)?;
    Ok(graph.bindings(alloc, &classes, &order, &groups, free, limit)?)
}

/// The most general unifier of the pairs (after Robinson 1965; the nodes of the terms are put into
/// classes as Huet 1976 does, so a term is never copied while the pairs are solved).
pub fn unify<T: Term>(alloc: Global, pairs: &Pairs<T>, limit: u32) -> Result<Subst<T>, UnifyFault>
    requires { 1 ≤ limit }

    // What is listed makes both terms of each pair equal, and every unifier is an instance of it.
    ensures unifier { IfOk result (λ s. Unifies T.Term (first s.list) pairs.now.list) }
    ensures general { IfOk result (λ s. (by : ℕ → Option T) → Unifies T.Term by pairs.now.list → IsInstanceOf T.Term by (first s.list)) }

    // No variable is listed twice, and no value holds a listed variable.
    ensures once { IfOk result (λ s. ListsOnce s.list) }
    ensures done { IfOk result (λ s. HoldNoneListed T.Term s.list) }

    ensures small { IfOk result (λ s. All (λ e. T.size e.1 ≤ limit) s.list) }
    ensures may_stand { IfOk result (λ s. All (λ e. T.stands e.1 ≡ true) s.list) }
    ensures clash { IsErrOf result UnifyFault.Clash → (by : ℕ → Option T) → Unifies T.Term by pairs.now.list → IsAdmissible T.Term limit by → ⊥ }
{
    solve(alloc, pairs, false, limit)
}

/// The most general unifier of the pairs, where every term may take the place of a variable.
pub fn unify_free<T: Term>(
    alloc: Global,
    pairs: &Pairs<T>,
    limit: u32,
) -> Result<Subst<T>, UnifyFault>
    requires { 1 ≤ limit }

    // What is listed makes both terms of each pair equal, and every unifier is an instance of it.
    ensures unifier { IfOk result (λ s. Unifies T.Term (first s.list) pairs.now.list) }
    ensures general { IfOk result (λ s. (by : ℕ → Option T) → Unifies T.Term by pairs.now.list → IsInstanceOf T.Term by (first s.list)) }

    // No variable is listed twice, and no value holds a listed variable.
    ensures once { IfOk result (λ s. ListsOnce s.list) }
    ensures done { IfOk result (λ s. HoldNoneListed T.Term s.list) }

    ensures small { IfOk result (λ s. All (λ e. T.size e.1 ≤ limit) s.list) }
    ensures clash { IsErrOf result UnifyFault.Clash → (by : ℕ → Option T) → Unifies T.Term by pairs.now.list → IsBounded T.Term limit by → ⊥ }
{
    solve(alloc, pairs, true, limit)
}
