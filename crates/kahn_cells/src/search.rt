//! Looking things up among what stands in a body.

ghost use Rattle.std.specs.Prelude.{◌≡◌, ◌+◌, ◌++◌, ◌<◌, ◌^◌, IfOk, OnOk, length, map};
ghost use Rattle.std.specs.Option.{option_copied};
ghost use Rattle.kahn_model.specs.Choices as choices;
ghost use Rattle.ls_places.specs.Patterns.{has_name as is_among, joined, names_of};
ghost use Rattle.ls_places.specs.Places as places;
ghost use Rattle.ls_places.specs.Search as spec;

use crate::values::case_of;
use kahn_model::Value;
use ls_ast::Pat;
use ls_base::{List, NoMemory};
use ls_places::{Frame, Transition};
use ls_sig::Binder;
use ls_value::Leaf;
use std::alloc::Global;

/// The item at a place.
#[tactic(auto, using(crate::proofs::Lists::slice_get_nth))]
pub fn nth<T>(all: &[T], k: usize) -> Option<&T>
    ensures { option_copied result ≡ spec.nth all.now k }
{
    all.get(k)
}

/// Whether a name stands in a list.
pub fn has_name(x: u32, all: &[u32]) -> bool
    ensures { result ≡ is_among x all.now }
{
    for y in all {
        if x == *y {
            return true;
        }
    }
    false
}

#[cycle(binds)]
#[tactic(auto, using(crate::proofs::Lists::has_name_append))]
fn any_binds(all: &[Pat], x: u32) -> bool
    ensures { result ≡ is_among x (joined (map names_of all.now)) }
{
    for p in all {
        if binds(p, x) {
            return true;
        }
    }
    false
}

/// Whether a pattern binds a name.
#[cycle(binds)]
pub fn binds(pat: &Pat, x: u32) -> bool
    ensures { result ≡ is_among x (names_of pat.now) }
{
    match pat {
        Pat::Any => false,
        Pat::Unit => false,
        Pat::Var(name) => x == name.0,
        Pat::Tuple(all) => any_binds(all.as_slice(), x),
    }
}

/// The arms among what is around a place.
pub fn arms(alloc: Global, place: &[Frame]) -> Result<List<(u32, u32)>, NoMemory>
    ensures { IfOk result (λ r. r ≡ places.arms place.now) }
{
    let mut done = List::new(alloc);
    for frame in place {
        match frame {
            Frame::Reset(_) => {}
            Frame::Arm(m, j) => done.push((*m, *j))?,
        }
    }
    Ok(done)
}

/// Whether the arms `q` are the outermost of `p`.
pub fn starts_with(p: &[(u32, u32)], q: &[(u32, u32)]) -> bool
    ensures { result ≡ spec.starts_with p.now q.now }
{
    let mut rest = p;
    for c in q {
        match rest {
            [] => return false,
            [a, more @ ..] => {
                if a.0 != c.0 || a.1 != c.1 {
                    return false;
                }
                rest = more;
            }
        }
    }
    true
}

/// An equal list of arms.
pub fn copy_arms(alloc: Global, p: &[(u32, u32)]) -> Result<List<(u32, u32)>, NoMemory>
    ensures { IfOk result (λ r. r ≡ p.now) }
{
    let mut done = List::new(alloc);
    for a in p {
        done.push(*a)?;
    }
    Ok(done)
}

/// An equal list of numbers.
pub fn copy_numbers(alloc: Global, all: &[u32]) -> Result<List<u32>, NoMemory>
    ensures { IfOk result (λ r. r ≡ all.now) }
{
    let mut done = List::new(alloc);
    for k in all {
        done.push(*k)?;
    }
    Ok(done)
}

/// The number of the state of this name, and the number of states where none has it.
pub fn state_of(x: u32, all: &[(u32, List<Transition>)]) -> u32
    requires { length all.now < 2 ^ 32 }
    ensures { result ≡ spec.state_of x all.now 0 }
{
    let mut k = 0;
    for s in all {
        if s.0 == x {
            return k;
        }
        k += 1;
    }
    k
}

/// The first arm that takes the case `k`.
fn arm_of(k: u32, all: &[Option<u32>]) -> Option<u32>
    requires { length all.now < 2 ^ 32 }
    ensures { result ≡ spec.arm_of k all.now 0 }
{
    let mut j = 0;
    for case in all {
        match case {
            None => return Some(j),
            Some(c) => {
                if *c == k {
                    return Some(j);
                }
            }
        }
        j += 1;
    }
    None
}

/// The arm that a scrutinee chooses: none where it is Nil.
pub fn chosen_arm(all: &[Option<u32>], w: &Value) -> Option<u32>
    requires { length all.now < 2 ^ 32 }
    ensures { result ≡ choices.chosen_arm all.now w.now }
{
    match case_of(w) {
        None => None,
        Some(k) => arm_of(k, all),
    }
}

/// The guards of the state of this number.
pub fn guards_of(all: &[(u32, List<Transition>)], k: u32) -> &[Transition]
    ensures { result.now ≡ spec.guards_of all.now k }
{
    match all.get(k as usize) {
        None => &[],
        Some(s) => s.1.as_slice(),
    }
}

/// The value of a constructor.
pub fn case_value(bound: Binder) -> Value
    ensures { result ≡ choices.case_value bound }
{
    match bound {
        Binder::Case(t, k) => Value::Leaf(Leaf::Enum(t, k)),
        Binder::Nothing => Value::Leaf(Leaf::Nil),
        Binder::Def(_) => Value::Leaf(Leaf::Nil),
        Binder::Param(_) => Value::Leaf(Leaf::Nil),
        Binder::Var(_) => Value::Leaf(Leaf::Nil),
    }
}
