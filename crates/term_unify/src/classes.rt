//! The classes of the nodes that have one value under every unifier.

ghost use Rattle.std.specs.Prelude.{◌≡◌, ◌≢◌, ◌<◌, ◌≤◌, ◌++◌, ◌∷◌, [], true, false, length, slice_index, slice_set, None, OnOk, IfOk, IsErrOf, IsTrue};
ghost use Rattle.term_unify.specs.Graph.{nodes, rank, work, AtNodes, EquatesParts, IsGraph, IsForest, StaysClosing, NeverCloses, NoneSolves, AllRespect, AreWithin, AreLabels, AreClasses, Solves, Leads, Shortened};

use crate::graph::{Equation, Graph};
use crate::laws::Term;
use crate::unifier::UnifyFault;
use std::alloc::{AllocError, Global};

impl<T: Term> Graph<'_, T> {
    /// The node that stands for the class of a node.
    fn find(&self, parent: &mut [usize], node: usize) -> usize
        requires forest { IsForest T.Term (nodes self.now.terms.items) parent.old }
        requires inside { node < length parent.old }
        ensures shortened { Shortened parent.old parent.new }
        ensures leads { Leads parent.old node result }
        ensures root { slice_index parent.new result ≡ result }
        ensures inside { result < length parent.old }
    {
        let mut at = node;
        while parent[at] != at {
            let next = parent[parent[at]];
            parent[at] = next;
            at = next;
        }
        at
    }

    /// Whether a node is to stand above another: a term above a variable, else the earlier one.
    fn is_above(&self, a: usize, b: usize) -> bool
        requires one { a < length self.now.terms.items }
        requires other { b < length self.now.terms.items }
        ensures yes { IsTrue result → a ≢ b → rank T.Term (nodes self.now.terms.items) a < rank T.Term (nodes self.now.terms.items) b }
        ensures no { result ≡ false → a ≢ b → rank T.Term (nodes self.now.terms.items) b < rank T.Term (nodes self.now.terms.items) a }
    {
        match (self.terms[a].as_var(), self.terms[b].as_var()) {
            (None, Some(_)) => true,
            (Some(_), None) => false,
            _ => a < b,
        }
    }

    /// Puts the class of `under` below that of `over`.
    fn link(
        &self,
        parent: &mut [usize],
        pending: &mut Vec<Equation>,
        over: usize,
        under: usize,
    ) -> Result<(), UnifyFault>
        requires graph { IsGraph T.Term (nodes self.now.terms.items) self.now.first.items }
        requires all { length parent.old ≡ length self.now.terms.items }
        requires upper { over < length parent.old }
        requires lower { under < length parent.old }
        ensures linked { OnOk result (parent.new ≡ slice_set parent.old under over) }
        ensures equated { OnOk result (EquatesParts T.Term (nodes self.now.terms.items) self.now.first.items over under pending.old.items pending.new.items) }
        ensures alike { OnOk result (AtNodes (nodes self.now.terms.items) over under (λ s t. T.var_of t ≡ None → T.alike s t ≡ true)) }
        ensures clash { IsErrOf result UnifyFault.Clash → AtNodes (nodes self.now.terms.items) over under (λ s t. (T.var_of t ≡ None) × (T.alike s t ≡ false)) }
    {
        let (upper, lower) = (self.terms[over], self.terms[under]);
        if lower.as_var().is_none() {
            if !upper.same_head(lower) {
                return Err(UnifyFault::Clash);
            }
            self.equate_parts(pending, over, under)?;
        }
        parent[under] = over;
        Ok(())
    }

    fn equate_parts(
        &self,
        pending: &mut Vec<Equation>,
        over: usize,
        under: usize,
    ) -> Result<(), AllocError>
        requires graph { IsGraph T.Term (nodes self.now.terms.items) self.now.first.items }
        requires upper { over < length self.now.terms.items }
        requires lower { under < length self.now.terms.items }
        requires same { AtNodes (nodes self.now.terms.items) over under (λ s t. length (T.kids s) ≡ length (T.kids t)) }
        ensures { OnOk result (EquatesParts T.Term (nodes self.now.terms.items) self.now.first.items over under pending.old.items pending.new.items) }
    {
        let (m, n) = (self.first[over], self.first[under]);
        for at in 0..self.terms[under].parts() {
            pending.push((m + at, n + at))?;
        }
        Ok(())
    }

    /// Brings the classes of two nodes together.
    fn join(
        &self,
        parent: &mut [usize],
        pending: &mut Vec<Equation>,
        a: usize,
        b: usize,
    ) -> Result<(), UnifyFault>
        requires graph { IsGraph T.Term (nodes self.now.terms.items) self.now.first.items }
        requires forest { IsForest T.Term (nodes self.now.terms.items) parent.old }
        requires one { a < length parent.old }
        requires other { b < length parent.old }
        ensures closing { OnOk result (StaysClosing T.Term (nodes self.now.terms.items) self.now.first.items parent.old (pending.old.items ++ (a, b) ∷ []) parent.new pending.new.items) }
        ensures less { OnOk result (work T.Term (nodes self.now.terms.items) parent.new pending.new.items ≤ work T.Term (nodes self.now.terms.items) parent.old pending.old.items) }
        ensures clash { IsErrOf result UnifyFault.Clash → NeverCloses T.Term (nodes self.now.terms.items) self.now.first.items parent.old (pending.old.items ++ (a, b) ∷ []) }
    {
        let one = self.find(parent, a);
        let other = self.find(parent, b);
        if one == other {
            return Ok(());
        }
        if self.is_above(one, other) {
            self.link(parent, pending, one, other)
        } else {
            self.link(parent, pending, other, one)
        }
    }

    /// For each node the one to which its links lead.
    fn labels(&self, alloc: Global, parent: &mut [usize]) -> Result<Vec<usize>, AllocError>
        requires { IsForest T.Term (nodes self.now.terms.items) parent.old }
        ensures { IfOk result (λ cls. AreLabels parent.old cls.items) }
    {
        let mut labels = Vec::new(alloc);
        for node in 0..parent.len() {
            let root = self.find(parent, node);
            labels.push(root)?;
        }
        Ok(labels)
    }

    /// For each node the one that stands for its class.
    pub fn classes(&self, alloc: Global, equal: Vec<Equation>) -> Result<Vec<usize>, UnifyFault>
        requires graph { IsGraph T.Term (nodes self.now.terms.items) self.now.first.items }
        requires within { AreWithin (length self.now.terms.items) equal.items }
        ensures classes { IfOk result (λ cls. AreClasses T.Term (nodes self.now.terms.items) self.now.first.items cls.items) }
        ensures solved { IfOk result (λ cls. Solves (slice_index cls.items) equal.items) }
        ensures sound { IfOk result (λ cls. AllRespect T.Term (nodes self.now.terms.items) equal.items cls.items) }
        ensures clash { IsErrOf result UnifyFault.Clash → NoneSolves T.Term (nodes self.now.terms.items) equal.items }
    {
        let mut pending = equal;
        let mut parent = Vec::new(alloc);
        for node in 0..self.terms.len() {
            parent.push(node)?;
        }
        while let Some((a, b)) = pending.pop() {
            self.join(&mut parent, &mut pending, a, b)?;
        }
        Ok(self.labels(alloc, &mut parent)?)
    }
}
