//! The classes in an order in which parts come first, and how large their values are.

ghost use Rattle.std.specs.Prelude.{◌≡◌, ◌<◌, ◌≤◌, true, length, slice_get, slice_index, Some, OnOk, IfOk, IsErrOf};
ghost use Rattle.term_unify.specs.Graph.{nodes, taken, IsGraph, AreClasses};
ghost use Rattle.term_unify.specs.Order.{IsWalk, IsOrder, KeepsSizes, KeepsEntered, StaySmall, NoneIsSmall, NoneIsAllowed};

use crate::graph::Graph;
use crate::laws::Term;
use crate::unifier::UnifyFault;
use std::alloc::Global;

/// What has been seen of the classes, each under the node that stands for it.
#[derive(Drop)]
struct Walk {
    /// The number of nodes of the value, or 0 where it is not known yet.
    sizes: Vec<u32>,
    /// Whether the value is just being looked at.
    entered: Vec<bool>,
    order: Vec<usize>,
}

/// Whether a term is let take the place of a variable.
fn may_take<T: Term>(free: bool, term: &T) -> bool
    ensures { result ≡ taken T.Term free term.now }
{
    free || term.may_stand()
}

impl<T: Term> Graph<'_, T> {
    /// Adds a class to the order, after those of its parts.
    fn visit(
        &self,
        classes: &[usize],
        walk: &mut Walk,
        root: usize,
        limit: u32,
    ) -> Result<(), UnifyFault>
        requires graph { IsGraph T.Term (nodes self.now.terms.items) self.now.first.items }
        requires classes { AreClasses T.Term (nodes self.now.terms.items) self.now.first.items classes.now }
        requires walk { IsWalk T.Term (nodes self.now.terms.items) self.now.first.items classes.now walk.old.sizes.items walk.old.order.items }
        requires marked { length walk.old.entered.items ≡ length self.now.terms.items }
        requires inside { root < length self.now.terms.items }
        requires root { slice_index classes.now root ≡ root }
        ensures walk { OnOk result (IsWalk T.Term (nodes self.now.terms.items) self.now.first.items classes.now walk.new.sizes.items walk.new.order.items) }
        ensures entered { OnOk result (walk.new.entered.items ≡ walk.old.entered.items) }
        ensures done { OnOk result (0 < slice_index walk.new.sizes.items root) }
        ensures kept { OnOk result (KeepsSizes walk.old.sizes.items walk.new.sizes.items) }
        ensures idle { OnOk result (KeepsEntered walk.old.entered.items walk.old.sizes.items walk.new.sizes.items) }
        ensures small { OnOk result (StaySmall limit walk.old.sizes.items walk.new.sizes.items) }
        ensures clash { IsErrOf result UnifyFault.Clash → NoneIsSmall T.Term (nodes self.now.terms.items) classes.now walk.old.entered.items root limit }
    {
        if walk.sizes[root] > 0 {
            return Ok(());
        }
        if limit == 0 || walk.entered[root] {
            return Err(UnifyFault::Clash);
        }
        walk.entered[root] = true;
        let mut size = 1;
        for at in 0..self.terms[root].parts() {
            let below = classes[self.first[root] + at];
            self.visit(classes, walk, below, limit - 1)?;
            if walk.sizes[below] > limit - size {
                return Err(UnifyFault::Clash);
            }
            size += walk.sizes[below];
        }
        walk.entered[root] = false;
        walk.sizes[root] = size;
        walk.order.push(root)?;
        Ok(())
    }

    /// The classes of the variables and of all that stands below them. If the variables are free,
    /// every term may take the place of one.
    pub fn order(
        &self,
        alloc: Global,
        classes: &[usize],
        free: bool,
        limit: u32,
    ) -> Result<Vec<usize>, UnifyFault>
        requires some { 1 ≤ limit }
        requires graph { IsGraph T.Term (nodes self.now.terms.items) self.now.first.items }
        requires classes { AreClasses T.Term (nodes self.now.terms.items) self.now.first.items classes.now }
        ensures order { IfOk result (λ order. IsOrder T.Term (nodes self.now.terms.items) self.now.first.items classes.now free limit order.items) }
        ensures clash { IsErrOf result UnifyFault.Clash → NoneIsAllowed T.Term (nodes self.now.terms.items) classes.now free limit }
    {
        let mut walk = Walk {
            sizes: vec![in alloc; 0; classes.len()]?,
            entered: vec![in alloc; false; classes.len()]?,
            order: Vec::new(alloc),
        };
        for node in 0..classes.len() {
            if self.terms[node].as_var().is_some() {
                let root = classes[node];
                if !may_take(free, self.terms[root]) {
                    return Err(UnifyFault::Clash);
                }
                self.visit(classes, &mut walk, root, limit)?;
            }
        }
        let Walk { order, .. } = walk;
        Ok(order)
    }
}
