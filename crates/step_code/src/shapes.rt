//! Tests of leaves, shapes and kinds of slots.

ghost use Rattle.std.specs.Prelude.{◌≡◌, ◌<◌, length, slice_get, Bool};
ghost use Rattle.std.specs.List.{list_all};
ghost use Rattle.step_code.specs.Leaves as leaves;
ghost use Rattle.step_code.specs.Shapes as spec;

use crate::{Slot, SlotKind};
use ls_base::{List, Name};
use ls_ops::OpSign;
use ls_value::{Leaf, Shape};

pub(crate) fn same_shape(a: Shape, b: Shape) -> bool
    ensures { result ≡ spec.same_shape a b }
{
    match (a, b) {
        (Shape::Int, Shape::Int)
        | (Shape::Bool, Shape::Bool)
        | (Shape::Char, Shape::Char)
        | (Shape::Text, Shape::Text)
        | (Shape::Unit, Shape::Unit) => true,
        (Shape::Enum(t), Shape::Enum(u)) => t == u,
        _ => false,
    }
}

/// Whether a leaf is of a shape; Nil is of each.
pub(crate) fn fits(leaf: &Leaf, shape: Shape) -> bool
    ensures { result ≡ spec.fits leaf.now shape }
{
    match leaf {
        Leaf::Nil => true,
        Leaf::Int(_) => same_shape(Shape::Int, shape),
        Leaf::Bool(_) => same_shape(Shape::Bool, shape),
        Leaf::Char(_) => same_shape(Shape::Char, shape),
        Leaf::Text(_) => same_shape(Shape::Text, shape),
        Leaf::Enum(t, _) => same_shape(Shape::Enum(*t), shape),
        Leaf::Unit => same_shape(Shape::Unit, shape),
    }
}

/// Whether two leaves are one leaf, which is not Nil.
pub(crate) fn is_same(a: &Leaf, b: &Leaf) -> bool
    ensures { result ≡ leaves.is_same a.now b.now }
{
    match (a, b) {
        (Leaf::Int(a), Leaf::Int(b)) => a == b,
        (Leaf::Bool(a), Leaf::Bool(b)) => a == b,
        (Leaf::Char(a), Leaf::Char(b)) => a.byte() == b.byte(),
        (Leaf::Text(a), Leaf::Text(b)) => a.bytes() == b.bytes(),
        (Leaf::Enum(t, a), Leaf::Enum(u, b)) if t == u => a == b,
        (Leaf::Unit, Leaf::Unit) => true,
        _ => false,
    }
}

/// Whether two leaves are one leaf, which may be Nil.
pub(crate) fn leaf_eq(a: &Leaf, b: &Leaf) -> bool
    ensures { result ≡ leaves.leaf_eq a.now b.now }
{
    match a {
        Leaf::Nil => matches!(b, Leaf::Nil),
        _ => is_same(a, b),
    }
}

fn has_case(cases: &[List<Name>], enumeration: u32, place: u32) -> bool
    ensures { result ≡ spec.has_case cases.now enumeration place }
{
    match cases.get(enumeration as usize) {
        Some(names) => (place as usize) < names.len(),
        None => false,
    }
}

/// Whether the enumeration of a leaf, and its constructor, are there.
pub(crate) fn is_known_leaf(cases: &[List<Name>], leaf: &Leaf) -> bool
    ensures { result ≡ spec.is_known_leaf cases.now leaf.now }
{
    match leaf {
        Leaf::Enum(enumeration, place) => has_case(cases, *enumeration, *place),
        _ => true,
    }
}

pub(crate) fn is_known_shape(cases: &[List<Name>], shape: Shape) -> bool
    ensures { result ≡ spec.is_known_shape cases.now shape }
{
    match shape {
        Shape::Enum(enumeration) => (enumeration as usize) < cases.len(),
        _ => true,
    }
}

pub(crate) fn kind_at(slots: &[Slot], at: u32) -> SlotKind
    ensures { result ≡ spec.kind_at slots.now at }
{
    match slots.get(at as usize) {
        Some(slot) => slot.kind,
        None => SlotKind::Plain,
    }
}

pub(crate) fn shape_at(slots: &[Slot], at: u32) -> Shape
    ensures { result ≡ spec.shape_at slots.now at }
{
    match slots.get(at as usize) {
        Some(slot) => slot.shape,
        None => Shape::Unit,
    }
}

pub(crate) fn is_arg(kind: &SlotKind) -> bool
    ensures { result ≡ spec.is_arg kind.now }
{
    matches!(kind, SlotKind::Arg)
}

pub(crate) fn is_mem(kind: &SlotKind) -> bool
    ensures { result ≡ spec.is_mem kind.now }
{
    matches!(kind, SlotKind::Mem(_))
}

/// Whether two slots hold the same before the first step.
pub(crate) fn same_mem(a: &SlotKind, b: &SlotKind) -> bool
    ensures { result ≡ spec.same_mem (spec.mem_of a.now) (spec.mem_of b.now) }
{
    match a {
        SlotKind::Mem(leaf) => match b {
            SlotKind::Mem(other) => leaf_eq(leaf, other),
            _ => false,
        },
        _ => !is_mem(b),
    }
}

/// Whether the fault of a slot's leaf, if it has one, is none.
pub(crate) fn mem_known(cases: &[List<Name>], kind: &SlotKind) -> bool
    ensures { result ≡ spec.mem_known cases.now kind.now }
{
    match kind {
        SlotKind::Mem(leaf) => is_known_leaf(cases, leaf),
        _ => true,
    }
}

pub(crate) fn mem_fits(kind: &SlotKind, shape: Shape) -> bool
    ensures { result ≡ spec.mem_fits kind.now shape }
{
    match kind {
        SlotKind::Mem(leaf) => fits(leaf, shape),
        _ => true,
    }
}

fn all_are(shape: Shape, shapes: &[Shape]) -> bool
    ensures { result ≡ list_all (spec.same_shape shape) shapes.now }
{
    shapes.iter().all(|other| same_shape(shape, *other))
}

/// Whether there are so many shapes, all of them one shape.
fn are_all(count: usize, shape: Shape, shapes: &[Shape]) -> bool
    ensures { result ≡ spec.are_all count shape shapes.now }
{
    shapes.len() == count && all_are(shape, shapes)
}

/// Whether operands and result have the shapes that an operator takes and gives.
pub(crate) fn operands_fit(sign: OpSign, result_shape: Shape, args: &[Shape]) -> bool
    ensures { result ≡ spec.operands_fit sign result_shape args.now }
{
    match sign {
        OpSign::Ints(n) => same_shape(result_shape, Shape::Int)
            && are_all(n as usize, Shape::Int, args),
        OpSign::IntPred(n) => same_shape(result_shape, Shape::Bool)
            && are_all(n as usize, Shape::Int, args),
        OpSign::Bools(n) => same_shape(result_shape, Shape::Bool)
            && are_all(n as usize, Shape::Bool, args),
        OpSign::CharPred => same_shape(result_shape, Shape::Bool) && are_all(1, Shape::Char, args),
        OpSign::CharInt => same_shape(result_shape, Shape::Int) && are_all(1, Shape::Char, args),
        OpSign::Same => match args {
            [a, b] => same_shape(result_shape, Shape::Bool) && same_shape(*a, *b),
            _ => false,
        },
        OpSign::Choice => match args {
            [c, a, b] => same_shape(*c, Shape::Bool)
                && same_shape(*a, result_shape)
                && same_shape(*b, result_shape),
            _ => false,
        },
    }
}
