//! The cells of an output line.

ghost use Rattle.std.specs.Prelude.{◌≡◌, ◌++◌, IfOk, OnOk, map, replicate};
ghost use Rattle.std.specs.Option.{option_copied};
ghost use Rattle.kahn_model.specs.Values as values;
ghost use Rattle.line_io.specs.declared.form.Cell.TheVariants.{Leaf as Given};
ghost use Rattle.node_lines.specs.Results as spec;

use crate::shapes::leaves;
use kahn_model::Value;
use line_io::Cell;
use ls_base::{List, NoMemory};
use ls_terms::TypeTerm;
use ls_value::Leaf;
use std::alloc::Global;

fn the_leaf(w: &Value) -> Leaf
    ensures { result ≡ values.the_leaf w.now }
{
    match w {
        Value::Leaf(leaf) => *leaf,
        Value::Tuple(_) => Leaf::Nil,
    }
}

fn parts(w: &Value) -> &[Value]
    ensures { result.now ≡ values.parts w.now }
{
    match w {
        Value::Leaf(_) => &[],
        Value::Tuple(all) => all.as_slice(),
    }
}

/// Adds the leaves of parts; one that is not there is Nil.
#[cycle(add)]
#[tactic(auto, using(crate::proofs::Lists::map_both))]
fn add_parts(all: &[TypeTerm], ws: &[Value], done: &mut List<Cell>) -> Result<(), NoMemory>
    ensures { OnOk result (done.new ≡ done.old ++ map Given (spec.part_leaves (map spec.value_leaves all.now) ws.now)) }
{
    let mut rest = ws;
    for t in all {
        match rest {
            [] => add_value(t, &Value::Leaf(Leaf::Nil), done)?,
            [w, more @ ..] => {
                add_value(t, w, done)?;
                rest = more;
            }
        }
    }
    Ok(())
}

/// Adds the leaves of a value of a type.
#[cycle(add)]
fn add_value(t: &TypeTerm, w: &Value, done: &mut List<Cell>) -> Result<(), NoMemory>
    ensures { OnOk result (done.new ≡ done.old ++ map Given (spec.value_leaves t.now w.now)) }
{
    match t {
        TypeTerm::Int => done.push(Cell::Leaf(the_leaf(w))),
        TypeTerm::Bool => done.push(Cell::Leaf(the_leaf(w))),
        TypeTerm::Char => done.push(Cell::Leaf(the_leaf(w))),
        TypeTerm::Text => done.push(Cell::Leaf(the_leaf(w))),
        TypeTerm::Unit => done.push(Cell::Leaf(the_leaf(w))),
        TypeTerm::Enum(_) => done.push(Cell::Leaf(the_leaf(w))),
        TypeTerm::Tuple(all) => add_parts(all.as_slice(), parts(w), done),
        TypeTerm::Signal(of) => add_value(of.get(), w, done),
        TypeTerm::Var(_) => Ok(()),
        TypeTerm::Arrow(_, _, _) => Ok(()),
    }
}

fn given(alloc: Global, t: &TypeTerm, w: &Value) -> Result<List<Cell>, NoMemory>
    ensures { IfOk result (λ r. r ≡ map Given (spec.value_leaves t.now w.now)) }
{
    let mut done = List::new(alloc);
    add_value(t, w, &mut done)?;
    Ok(done)
}

fn dot(silent: bool) -> Cell
    ensures { result ≡ spec.dot silent }
{
    if silent {
        Cell::NotEmitted
    } else {
        Cell::Absent
    }
}

fn repeat<T: Copy + Drop>(alloc: Global, item: T, times: usize) -> Result<List<T>, NoMemory>
    ensures { IfOk result (λ r. r ≡ replicate times item) }
{
    let mut done = List::new(alloc);
    for _made in 0..times {
        done.push(item)?;
    }
    Ok(done)
}

/// The same cell for each leaf.
fn each(alloc: Global, silent: bool, t: &TypeTerm) -> Result<List<Cell>, NoMemory>
    ensures { IfOk result (λ r. r ≡ spec.each (spec.dot silent) t.now) }
{
    let shapes = leaves(alloc, t)?;
    repeat(alloc, dot(silent), shapes.len())
}

/// The cells of a line for a result of a type. A result that is not known counts as absent.
pub fn result_cells(
    alloc: Global,
    t: &TypeTerm,
    c: Option<&kahn_model::Cell>,
) -> Result<List<Cell>, NoMemory>
    ensures { IfOk result (λ r. r ≡ spec.result_cells t.now (option_copied c.entry)) }
{
    match c {
        Some(kahn_model::Cell::Present(w)) => given(alloc, t, w),
        Some(kahn_model::Cell::Silent) => each(alloc, true, t),
        Some(kahn_model::Cell::Absent) => each(alloc, false, t),
        Some(kahn_model::Cell::Chosen(_, _)) => each(alloc, false, t),
        None => each(alloc, false, t),
    }
}
