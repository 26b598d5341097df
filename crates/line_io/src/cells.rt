ghost use Rattle.std.specs.Prelude.{◌≡◌, ◌+◌, ◌<◌, ◌≤◌, ◌↔◌, ℕ, Some, IsTrue, IfSome, IfNone, length, slice_get};
ghost use Rattle.line_io.specs.declared.form.Cell.{Cell};
ghost use Rattle.line_io.specs.declared.form.Reading.TheVariants.{Dot, Leaf as Holding};
ghost use Rattle.line_io.specs.Cells.{IsOn, IsSilent, first_of, is_of, CellAt};

use crate::form::Reading;
use crate::{Cell, Field};
use ls_value::Leaf;

fn is_same(a: &Leaf, b: &Leaf) -> bool
    ensures { IsTrue result ↔ (a.now ≡ b.now) }
{
    match a {
        Leaf::Nil => matches!(b, Leaf::Nil),
        Leaf::Int(own) => matches!(b, Leaf::Int(other) if other == own),
        Leaf::Bool(own) => matches!(b, Leaf::Bool(other) if other == own),
        Leaf::Char(own) => matches!(b, Leaf::Char(other) if other.byte() == own.byte()),
        Leaf::Text(own) => matches!(b, Leaf::Text(other) if other.bytes() == own.bytes()),
        Leaf::Enum(own, place) => matches!(b, Leaf::Enum(other, at) if other == own && at == place),
        Leaf::Unit => matches!(b, Leaf::Unit),
    }
}

/// Whether a field holds a leaf.
fn holds(readings: &[Reading], at: u32, leaf: Leaf) -> bool
    ensures { IsTrue result ↔ (slice_get readings.now at ≡ Some (Holding leaf)) }
{
    match readings.get(at as usize) {
        Some(Reading::Leaf(own)) => is_same(own, &leaf),
        _ => false,
    }
}

/// Whether a clock is on.
fn is_on(readings: &[Reading], on: &[(u32, Leaf)]) -> bool
    ensures { IsTrue result ↔ IsOn readings.now on.now }
{
    for (at, leaf) in on {
        if !holds(readings, *at, *leaf) {
            return false;
        }
    }
    true
}

fn is_of(signal: u32, own: Option<u32>) -> bool
    ensures { result ≡ is_of signal own }
{
    match own {
        Some(own) => own == signal,
        None => false,
    }
}

fn first_of(fields: &[Field], signal: u32) -> Option<usize>
    ensures { result ≡ first_of fields.now signal }
{
    fields.iter().position(|field| is_of(signal, field.signal))
}

fn is_dot(readings: &[Reading], at: usize) -> bool
    ensures { IsTrue result ↔ (slice_get readings.now at ≡ Some Dot) }
{
    matches!(readings.get(at), Some(Reading::Dot))
}

/// Whether the field is of a signal that is not emitted.
fn is_silent(fields: &[Field], readings: &[Reading], signal: Option<u32>) -> bool
    ensures { IsTrue result ↔ IsSilent fields.now readings.now signal }
{
    match signal {
        Some(signal) => match first_of(fields, signal) {
            Some(first) => is_dot(readings, first),
            None => false,
        },
        None => false,
    }
}

/// The cell of a field, where it is not bad.
pub(crate) fn cell_at(fields: &[Field], readings: &[Reading], at: usize) -> Option<Cell>
    requires { (at < length fields.now) × (length readings.now ≡ length fields.now) }
    ensures found { IfSome result (λ cell. CellAt fields.now readings.now at cell) }
    ensures none { IfNone result ((cell : Cell) → ¬ CellAt fields.now readings.now at cell) }
{
    let field = &fields[at];
    let on = is_on(readings, field.on.as_slice());
    let silent = is_silent(fields, readings, field.signal);
    match readings[at] {
        Reading::Dot => if !on {
            Some(Cell::Absent)
        } else if silent {
            Some(Cell::NotEmitted)
        } else {
            None
        },
        Reading::Leaf(leaf) => if on && !silent {
            Some(Cell::Leaf(leaf))
        } else {
            None
        },
        Reading::Bad => None,
    }
}
