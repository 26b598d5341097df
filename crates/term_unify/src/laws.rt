//! What a term is.

ghost use Rattle.std.specs.Prelude.{◌≡◌, ℕ, ◌+◌, ◌<◌, Bool, true, List, [], map, length, slice_get, Option, Some, None, IfOk, unwrap_or};
ghost use Rattle.term_unify.specs.Terms.{total, first};

use crate::subst::Subst;
use ls_base::NoMemory;
use std::alloc::Global;

/// A first-order term: a variable, or a head with parts.
///
/// In the laws a substitution is a function from the number of a variable to the term that takes
/// its place, or to none where the variable stays.
pub trait Term: Drop {
    /// The number of nodes.
    ghost size: { Self → ℕ };
    /// Whether two terms have one head.
    ghost alike: { Self → Self → Bool };

    ghost kids: { Self → List Self };

    ghost var_of: { Self → Option ℕ };
    /// Whether a term may take a variable's place.
    ghost stands: { Self → Bool };
    /// The term with each variable replaced.
    ghost apply: { (ℕ → Option Self) → Self → Self };

    /// The number of a variable, and none exactly where the term is no variable.
    fn as_var(&self) -> Option<u32>
        ensures { result ≡ var_of self.now };

    /// How many parts stand directly under the head.
    fn parts(&self) -> usize
        ensures { result ≡ length (kids self.now) };

    /// A part by its place, counted from 0.
    fn part(&self, at: usize) -> &Self
        requires { at < length (kids self.now) }
        ensures { slice_get (kids self.now) at ≡ Some result.now };

    /// Whether the heads are the same.
    fn same_head(&self, other: &Self) -> bool
        ensures { result ≡ alike self.now other.now };

    /// Whether the term may take a variable's place.
    fn may_stand(&self) -> bool
        ensures { result ≡ stands self.now };

    /// The term with each variable replaced that `by` lists, by the first term listed for it.
    fn put(&self, alloc: Global, by: &Subst<Self>) -> Result<Self, NoMemory>
        ensures { IfOk result (λ r. r ≡ apply (first by.now.list) self.now) };

    ghost size_is: { (t : Self) → size t ≡ 1 + total size (kids t) };

    ghost alike_self: { (t : Self) → alike t t ≡ true };

    ghost alike_back: { (s t : Self) → alike s t ≡ true → alike t s ≡ true };

    ghost alike_along: { (r s t : Self) → alike r s ≡ true → alike s t ≡ true → alike r t ≡ true };

    ghost alike_kids: { (s t : Self) → alike s t ≡ true → length (kids s) ≡ length (kids t) };

    ghost alike_same: { (s t : Self) → alike s t ≡ true → kids s ≡ kids t → s ≡ t };

    ghost alike_var: { (s t : Self) → alike s t ≡ true → var_of s ≡ var_of t };

    ghost alike_stands: { (s t : Self) → alike s t ≡ true → stands s ≡ stands t };

    ghost var_same: { (s t : Self) (x : ℕ) → var_of s ≡ Some x → var_of t ≡ Some x → s ≡ t };

    ghost var_kids: { (t : Self) (x : ℕ) → var_of t ≡ Some x → kids t ≡ [] };

    ghost var_stands: { (t : Self) (x : ℕ) → var_of t ≡ Some x → stands t ≡ true };

    ghost apply_var: { (by : ℕ → Option Self) (t : Self) (x : ℕ) → var_of t ≡ Some x → apply by t ≡ unwrap_or (by x) t };

    ghost apply_alike: { (by : ℕ → Option Self) (t : Self) → var_of t ≡ None → alike (apply by t) t ≡ true };

    ghost apply_kids: { (by : ℕ → Option Self) (t : Self) → var_of t ≡ None → kids (apply by t) ≡ map (apply by) (kids t) };
}
