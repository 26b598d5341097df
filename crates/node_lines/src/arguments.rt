//! What the cells of a line give to a parameter.

ghost use Rattle.std.specs.Prelude.{◌≡◌, IfOk, map};
ghost use Rattle.std.specs.Option.{option_copied};
ghost use Rattle.node_lines.specs.Arguments as spec;

use crate::shapes::is_unit;
use kahn_model::Value;
use line_io::Cell;
use ls_base::{List, NoMemory};
use ls_terms::TypeTerm;
use ls_value::Leaf;
use std::alloc::Global;

fn is_same(a: &Leaf, b: &Leaf) -> bool
    ensures { result ≡ spec.is_same a.now b.now }
{
    match (a, b) {
        (Leaf::Int(a), Leaf::Int(b)) => a == b,
        (Leaf::Bool(a), Leaf::Bool(b)) => a == b,
        (Leaf::Char(a), Leaf::Char(b)) => a.byte() == b.byte(),
        (Leaf::Text(a), Leaf::Text(b)) => a.bytes() == b.bytes(),
        (Leaf::Enum(t, a), Leaf::Enum(u, b)) if t == u => a == b,
        (Leaf::Unit, Leaf::Unit) => true,
        _ => false,
    }
}

fn holds(c: Option<&Cell>, leaf: &Leaf) -> bool
    ensures { result ≡ spec.holds (option_copied c.entry) leaf.now }
{
    match c {
        Some(Cell::Leaf(own)) => is_same(own, leaf),
        Some(Cell::Absent) => false,
        Some(Cell::NotEmitted) => false,
        None => false,
    }
}

/// Whether a line holds what is asked of a field.
fn is_held(line: &[Cell], asked: &(u32, Leaf)) -> bool
    ensures { result ≡ spec.is_held line.now asked.now }
{
    let (at, leaf) = asked;
    holds(line.get(*at as usize), leaf)
}

/// Whether the clock that asks this is on in a line.
pub(crate) fn is_on(line: &[Cell], on: &[(u32, Leaf)]) -> bool
    ensures { result ≡ spec.is_on line.now on.now }
{
    for asked in on {
        if !is_held(line, asked) {
            return false;
        }
    }
    true
}

fn leaf_in(c: &Cell) -> Leaf
    ensures { result ≡ spec.leaf_in c.now }
{
    match c {
        Cell::Leaf(leaf) => *leaf,
        Cell::Absent => Leaf::Nil,
        Cell::NotEmitted => Leaf::Nil,
    }
}

/// The first leaf of some cells.
fn first_leaf(cells: &[Cell]) -> Value
    ensures { result ≡ (spec.take_leaf cells.now).0 }
{
    match cells {
        [] => Value::Leaf(Leaf::Nil),
        [c, ..] => Value::Leaf(leaf_in(c)),
    }
}

/// The cells behind the first.
fn behind(cells: &[Cell]) -> &[Cell]
    ensures { result.now ≡ (spec.take_leaf cells.now).1 }
{
    match cells {
        [] => cells,
        [_, rest @ ..] => rest,
    }
}

#[cycle(skip)]
fn skip_all<'a>(all: &[TypeTerm], cells: &'a [Cell]) -> &'a [Cell]
    ensures { result.now ≡ (spec.take_all (map spec.take_value all.now) cells.now).1 }
{
    let mut rest = cells;
    for t in all {
        rest = skip(t, rest);
    }
    rest
}

/// The cells behind those of a value of a type.
#[cycle(skip)]
fn skip<'a>(t: &TypeTerm, cells: &'a [Cell]) -> &'a [Cell]
    ensures { result.now ≡ (spec.take_value t.now cells.now).1 }
{
    match t {
        TypeTerm::Int => behind(cells),
        TypeTerm::Bool => behind(cells),
        TypeTerm::Char => behind(cells),
        TypeTerm::Text => behind(cells),
        TypeTerm::Unit => behind(cells),
        TypeTerm::Enum(_) => behind(cells),
        TypeTerm::Tuple(all) => skip_all(all.as_slice(), cells),
        TypeTerm::Signal(of) => skip(of.get(), cells),
        TypeTerm::Var(_) => cells,
        TypeTerm::Arrow(_, _, _) => cells,
    }
}

#[cycle(value)]
fn values(alloc: Global, all: &[TypeTerm], cells: &[Cell]) -> Result<List<Value>, NoMemory>
    ensures { IfOk result (λ r. r ≡ (spec.take_all (map spec.take_value all.now) cells.now).0) }
{
    let mut done = List::new(alloc);
    let mut rest = cells;
    for t in all {
        done.push(value(alloc, t, rest)?)?;
        rest = skip(t, rest);
    }
    Ok(done)
}

/// A value of a type, whose leaves are those that the first cells hold.
#[cycle(value)]
fn value(alloc: Global, t: &TypeTerm, cells: &[Cell]) -> Result<Value, NoMemory>
    ensures { IfOk result (λ r. r ≡ (spec.take_value t.now cells.now).0) }
{
    match t {
        TypeTerm::Int => Ok(first_leaf(cells)),
        TypeTerm::Bool => Ok(first_leaf(cells)),
        TypeTerm::Char => Ok(first_leaf(cells)),
        TypeTerm::Text => Ok(first_leaf(cells)),
        TypeTerm::Unit => Ok(first_leaf(cells)),
        TypeTerm::Enum(_) => Ok(first_leaf(cells)),
        TypeTerm::Tuple(all) => Ok(Value::Tuple(values(alloc, all.as_slice(), cells)?)),
        TypeTerm::Signal(of) => value(alloc, of.get(), cells),
        TypeTerm::Var(_) => Ok(Value::Leaf(Leaf::Nil)),
        TypeTerm::Arrow(_, _, _) => Ok(Value::Leaf(Leaf::Nil)),
    }
}

fn by_fields(alloc: Global, t: &TypeTerm, cells: &[Cell]) -> Result<kahn_model::Cell, NoMemory>
    ensures { IfOk result (λ r. r ≡ spec.by_fields t.now cells.now) }
{
    match cells {
        [] => Ok(kahn_model::Cell::Absent),
        [Cell::Absent, ..] => Ok(kahn_model::Cell::Absent),
        [Cell::NotEmitted, ..] => Ok(kahn_model::Cell::Silent),
        [Cell::Leaf(_), ..] => Ok(kahn_model::Cell::Present(value(alloc, t, cells)?)),
    }
}

fn by_clock(on: bool) -> kahn_model::Cell
    ensures { result ≡ spec.by_clock on }
{
    if on {
        kahn_model::Cell::Present(Value::Leaf(Leaf::Unit))
    } else {
        kahn_model::Cell::Absent
    }
}

/// The cell of a parameter, whose fields are the first of these.
pub(crate) fn argument_of(
    alloc: Global,
    t: &TypeTerm,
    on: bool,
    cells: &[Cell],
) -> Result<kahn_model::Cell, NoMemory>
    ensures { IfOk result (λ r. r ≡ spec.argument_of t.now on cells.now) }
{
    if is_unit(t) {
        Ok(by_clock(on))
    } else {
        by_fields(alloc, t, cells)
    }
}
