//! The nodes of the terms of the pairs.

ghost use Rattle.std.specs.Prelude.{◌≡◌, ◌≢◌, ℕ, ◌+◌, ◌<◌, ◌≤◌, ◌↔◌, ◌++◌, length, Option, OnOk, IfOk};
ghost use Rattle.term_unify.specs.Graph.{nodes, value, Keeps, IsGraph, Solves, AreWithin, SolvesAlso, SolvingJoins, Pose, Unifies};

use crate::laws::Term;
use crate::unifier::Pairs;
use std::alloc::{AllocError, Global};
use std::collections::BTreeMap;

/// The nodes of some terms: each stands with its term, and the parts of a node stand side by side,
/// from `first` on.
#[derive(Drop)]
pub struct Graph<'a, T> {
    pub terms: Vec<&'a T>,
    pub first: Vec<usize>,
}

/// Two nodes that are to have one value.
pub type Equation = (usize, usize);

/// The roots, and an equation for each pair.
fn roots<'a, T>(
    alloc: Global,
    pairs: &'a [(T, T)],
) -> Result<(Vec<&'a T>, Vec<Equation>), AllocError>
    ensures { IfOk result (λ r. Pose (nodes r.0.items) r.1.items pairs.now) }
{
    let mut terms = Vec::new(alloc);
    let mut equal = Vec::new(alloc);
    for pair in pairs {
        let at = terms.len();
        equal.push((at, at + 1))?;
        terms.push(&pair.0)?;
        terms.push(&pair.1)?;
    }
    Ok((terms, equal))
}

/// Adds the parts of a term as nodes.
fn add_parts<'a, T: Term>(terms: &mut Vec<&'a T>, term: &'a T) -> Result<(), AllocError>
    ensures { OnOk result (nodes terms.new.items ≡ nodes terms.old.items ++ T.kids term.now) }
{
    for at in 0..term.parts() {
        terms.push(term.part(at))?;
    }
    Ok(())
}

/// Adds all nodes below those that are there, and answers where the parts of each stand.
fn expand<T: Term>(alloc: Global, terms: &mut Vec<&T>) -> Result<Vec<usize>, AllocError>
    ensures kept { OnOk result (Keeps (nodes terms.old.items) (nodes terms.new.items)) }
    ensures graph { IfOk result (λ first. IsGraph T.Term (nodes terms.new.items) first.items) }
{
    let mut first = Vec::new(alloc);
    let mut at = 0;
    while at < terms.len() {
        let term = terms[at];
        first.push(terms.len())?;
        add_parts(terms, term)?;
        at += 1;
    }
    Ok(first)
}

/// Adds an equation for each node of a variable that has a node before it.
fn join_variables<T: Term>(
    alloc: Global,
    terms: &[&T],
    equal: &mut Vec<Equation>,
) -> Result<(), AllocError>
    ensures within { OnOk result (AreWithin (length terms.now) equal.old.items → AreWithin (length terms.now) equal.new.items) }
    ensures sound { OnOk result (SolvesAlso T.Term (nodes terms.now) equal.old.items equal.new.items) }
    ensures kept { OnOk result (SolvesAlso T.Term (nodes terms.now) equal.new.items equal.old.items) }
    ensures joined { OnOk result (SolvingJoins T.Term (nodes terms.now) (length terms.now) equal.new.items) }
{
    let mut seen: BTreeMap<u32, usize> = BTreeMap::new(alloc);
    for at in 0..terms.len() {
        if let Some(variable) = terms[at].as_var() {
            match seen.get(&variable) {
                Some(before) => equal.push((*before, at))?,
                None => {
                    seen.insert(variable, at)?;
                }
            }
        }
    }
    Ok(())
}

impl<'a, T: Term> Graph<'a, T> {
    /// The nodes of the pairs, and which of them are to have one value.
    pub fn of(
        alloc: Global,
        pairs: &'a Pairs<T>,
    ) -> Result<(Graph<'a, T>, Vec<Equation>), AllocError>
        ensures graph { IfOk result (λ r. IsGraph T.Term (nodes r.0.terms.items) r.0.first.items) }
        ensures within { IfOk result (λ r. AreWithin (length r.0.terms.items) r.1.items) }
        ensures sound { IfOk result (λ r. (by : ℕ → Option T) → Unifies T.Term by pairs.now.list → Solves (value T.Term (nodes r.0.terms.items) by) r.1.items) }
        ensures kept { IfOk result (λ r. (by : ℕ → Option T) → Solves (value T.Term (nodes r.0.terms.items) by) r.1.items → Unifies T.Term by pairs.now.list) }
        ensures joined { IfOk result (λ r. SolvingJoins T.Term (nodes r.0.terms.items) (length r.0.terms.items) r.1.items) }
    {
        let (mut terms, mut equal) = roots(alloc, pairs.list.as_slice())?;
        let first = expand(alloc, &mut terms)?;
        join_variables(alloc, terms.as_slice(), &mut equal)?;
        Ok((Graph { terms, first }, equal))
    }
}
