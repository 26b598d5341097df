//! What stands for each variable, from the classes in order.

ghost use Rattle.std.specs.Prelude.{◌<◌, length, slice_index, OnOk, IfOk, All};
ghost use Rattle.term_unify.specs.Graph.{nodes, IsGraph, AreClasses, JoinsVariables};
ghost use Rattle.term_unify.specs.Order.{IsOrder};
ghost use Rattle.term_unify.specs.Binding.{AreGroups, Binds, IsBinding};

use crate::graph::Graph;
use crate::laws::Term;
use crate::subst::Subst;
use ls_base::NoMemory;
use std::alloc::{AllocError, Global};

impl<T: Term> Graph<'_, T> {
    /// The nodes of variables by their class.
    pub fn groups(&self, alloc: Global, classes: &[usize]) -> Result<Vec<Vec<usize>>, AllocError>
        requires { AreClasses T.Term (nodes self.now.terms.items) self.now.first.items classes.now }
        ensures { IfOk result (λ groups. AreGroups T.Term (nodes self.now.terms.items) classes.now (length self.now.terms.items) groups.items) }
    {
        let mut groups = Vec::new(alloc);
        for _ in classes {
            groups.push(Vec::new(alloc))?;
        }
        for node in 0..classes.len() {
            if self.terms[node].as_var().is_some() {
                let group: &mut Vec<usize> = &mut groups[classes[node]];
                group.push(node)?;
            }
        }
        Ok(groups)
    }

    /// Lists the value of a class for each of its variables, but not a variable for itself.
    fn bind(
        &self,
        alloc: Global,
        root: usize,
        group: &[usize],
        done: &mut Subst<T>,
    ) -> Result<(), NoMemory>
        requires root { root < length self.now.terms.items }
        requires group { All (λ i. i < length self.now.terms.items) group.now }
        ensures { OnOk result (Binds T.Term (nodes self.now.terms.items) (length self.now.terms.items) self.now.first.items root group.now done.old.list done.new.list) }
    {
        let term = self.terms[root];
        for node in group {
            let this = self.terms[*node];
            if let Some(variable) = this.as_var() {
                if !term.same_head(this) && done.get(variable).is_none() {
                    let value = term.put(alloc, done)?;
                    done.push(variable, value)?;
                }
            }
        }
        Ok(())
    }

    /// What stands for each variable.
    pub fn bindings(
        &self,
        alloc: Global,
        classes: &[usize],
        order: &[usize],
        groups: &Vec<Vec<usize>>,
        free: bool,
        limit: u32,
    ) -> Result<Subst<T>, NoMemory>
        requires graph { IsGraph T.Term (nodes self.now.terms.items) self.now.first.items }
        requires classes { AreClasses T.Term (nodes self.now.terms.items) self.now.first.items classes.now }
        requires joined { JoinsVariables T.Term (nodes self.now.terms.items) (length self.now.terms.items) (slice_index classes.now) }
        requires order { IsOrder T.Term (nodes self.now.terms.items) self.now.first.items classes.now free limit order.now }
        requires groups { AreGroups T.Term (nodes self.now.terms.items) classes.now (length self.now.terms.items) groups.now.items }
        ensures { IfOk result (λ done. IsBinding T.Term (nodes self.now.terms.items) classes.now order.now (length order.now) done.list) }
    {
        let mut done = Subst::new(alloc);
        for root in order {
            self.bind(alloc, *root, groups[*root].as_slice(), &mut done)?;
        }
        Ok(done)
    }
}
