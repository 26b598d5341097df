//! Leaves as conditions, and what operators do to slots.

ghost use Rattle.std.specs.Prelude.{◌≡◌, ◌<◌, ◌||◌, length, set};
ghost use Rattle.ls_ops.specs.Values.{value_of, alarm_of};
ghost use Rattle.step_code.specs.Leaves.{tested as tested_of, is_true as is_true_of, is_same};

use ls_ops::{Alarm, Op, evaluate};
use ls_value::Leaf;

/// Whether a leaf is the truth value true.
pub(crate) fn is_true(leaf: &Leaf) -> bool
    ensures { result ≡ is_true_of leaf.now }
{
    match leaf {
        Leaf::Bool(b) => *b,
        _ => false,
    }
}

fn same(a: &Leaf, b: &Leaf) -> bool
    ensures { result ≡ is_same a.now b.now }
{
    match (a, b) {
        (Leaf::Int(a), Leaf::Int(b)) => a == b,
        (Leaf::Bool(a), Leaf::Bool(b)) => a == b,
        (Leaf::Char(a), Leaf::Char(b)) => a.byte() == b.byte(),
        (Leaf::Text(a), Leaf::Text(b)) => a.bytes() == b.bytes(),
        (Leaf::Enum(t, a), Leaf::Enum(u, b)) if t == u => a == b,
        (Leaf::Unit, Leaf::Unit) => true,
        _ => false,
    }
}

/// Whether the first leaf is the second; Nil where the first is Nil.
pub(crate) fn tested(a: &Leaf, leaf: &Leaf) -> Leaf
    ensures { result ≡ tested_of a.now leaf.now }
{
    match a {
        Leaf::Nil => Leaf::Nil,
        _ => Leaf::Bool(same(a, leaf)),
    }
}

/// Puts an operator's value into a slot, and answers whether an alarm was noted so far.
pub(crate) fn operate(slots: &mut [Leaf], d: usize, op: Op, args: &[Leaf], alarmed: bool) -> bool
    requires { d < length slots.old }
    ensures slots { slots.new ≡ set slots.old d (value_of op args.now) }
    ensures alarm { result ≡ (alarmed || alarm_of op args.now) }
{
    let (value, alarm) = evaluate(op, args);
    slots[d] = value;
    match alarm {
        Alarm::Division => true,
        Alarm::None => alarmed,
    }
}
