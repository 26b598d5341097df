//! The leaves of a type.

ghost use Rattle.std.specs.Prelude.{◌≡◌, ◌++◌, IfOk, OnOk, map};
ghost use Rattle.ls_places.specs.Patterns.{joined};
ghost use Rattle.node_lines.specs.Leaves as spec;

use ls_base::{List, NoMemory};
use ls_terms::TypeTerm;
use ls_value::Shape;
use std::alloc::Global;

#[cycle(leaves)]
fn add_all(all: &[TypeTerm], done: &mut List<Shape>) -> Result<(), NoMemory>
    ensures { OnOk result (done.new ≡ done.old ++ joined (map spec.leaves all.now)) }
{
    for t in all {
        add_leaves(t, done)?;
    }
    Ok(())
}

#[cycle(leaves)]
fn add_leaves(t: &TypeTerm, done: &mut List<Shape>) -> Result<(), NoMemory>
    ensures { OnOk result (done.new ≡ done.old ++ spec.leaves t.now) }
{
    match t {
        TypeTerm::Int => done.push(Shape::Int),
        TypeTerm::Bool => done.push(Shape::Bool),
        TypeTerm::Char => done.push(Shape::Char),
        TypeTerm::Text => done.push(Shape::Text),
        TypeTerm::Unit => done.push(Shape::Unit),
        TypeTerm::Enum(e) => done.push(Shape::Enum(*e)),
        TypeTerm::Tuple(all) => add_all(all.as_slice(), done),
        TypeTerm::Signal(of) => add_leaves(of.get(), done),
        TypeTerm::Var(_) => Ok(()),
        TypeTerm::Arrow(_, _, _) => Ok(()),
    }
}

/// The shapes of the leaves of a type, in order.
pub fn leaves(alloc: Global, t: &TypeTerm) -> Result<List<Shape>, NoMemory>
    ensures { IfOk result (λ r. r ≡ spec.leaves t.now) }
{
    let mut done = List::new(alloc);
    add_leaves(t, &mut done)?;
    Ok(done)
}

pub(crate) fn is_unit(t: &TypeTerm) -> bool
    ensures { result ≡ spec.is_unit t.now }
{
    matches!(t, TypeTerm::Unit)
}

/// The shapes of the fields that a parameter has in a line: a unit has none.
pub(crate) fn input_leaves(alloc: Global, t: &TypeTerm) -> Result<List<Shape>, NoMemory>
    ensures { IfOk result (λ r. r ≡ spec.input_leaves t.now) }
{
    if is_unit(t) {
        Ok(List::new(alloc))
    } else {
        leaves(alloc, t)
    }
}
