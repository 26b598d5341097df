use crate::{NodeFault, columns, constructors, form, node_fault, result_cells};
use kahn_model::Value;
use line_io::Cell;
use ls_ast::{DefOf, Mark};
use ls_base::{Boxed, Line, List, Name, Names, NoMemory};
use ls_sig::{InitSig, Note, Sig};
use ls_terms::{ClockTerm, Kind, TypeTerm};
use ls_value::Leaf;
use std::alloc::Global;
use std::test::Fail;

fn pair(alloc: Global, a: TypeTerm, b: TypeTerm) -> Result<TypeTerm, NoMemory> {
    let mut all = List::new(alloc);
    all.push(a)?;
    all.push(b)?;
    Ok(TypeTerm::Tuple(all))
}

/// `int` on `c`, `unit` on `not c`, the clock `c`, and `(int * unit) sig`.
fn params(alloc: Global) -> Result<List<TypeTerm>, NoMemory> {
    let mut all = List::new(alloc);
    all.push(TypeTerm::Int)?;
    all.push(TypeTerm::Unit)?;
    all.push(TypeTerm::Bool)?;
    let carried = pair(alloc, TypeTerm::Int, TypeTerm::Unit)?;
    all.push(TypeTerm::Signal(Boxed::new(alloc, carried)?))?;
    Ok(all)
}

fn clocks(alloc: Global) -> Result<List<ClockTerm>, NoMemory> {
    let mut all = List::new(alloc);
    all.push(ClockTerm::On(Boxed::new(alloc, ClockTerm::Var(0))?, 2, 1))?;
    all.push(ClockTerm::On(Boxed::new(alloc, ClockTerm::Var(0))?, 2, 0))?;
    all.push(ClockTerm::Var(0))?;
    all.push(ClockTerm::Var(0))?;
    Ok(all)
}

fn signature(alloc: Global) -> Result<Sig, NoMemory> {
    let mut marks = List::new(alloc);
    marks.push(Mark::Data)?;
    marks.push(Mark::Data)?;
    marks.push(Mark::Clock)?;
    marks.push(Mark::Signal)?;
    Ok(Sig {
        name: Name(0),
        kind: Kind::Seq,
        marks,
        params: params(alloc)?,
        result: pair(alloc, TypeTerm::Enum(0), TypeTerm::Unit)?,
        clocks: clocks(alloc)?,
        result_clock: ClockTerm::Var(0),
        clock_names: List::new(alloc),
    })
}

fn four<T: Drop>(alloc: Global, a: T, b: T, c: T, d: T) -> Result<List<T>, NoMemory> {
    let mut all = List::new(alloc);
    all.push(a)?;
    all.push(b)?;
    all.push(c)?;
    all.push(d)?;
    Ok(all)
}

/// The cells of the lines `7 true 1 ()` and `. false . .`.
fn lines(alloc: Global) -> Result<List<List<Cell>>, NoMemory> {
    let mut all = List::new(alloc);
    let (on, off) = (Cell::Leaf(Leaf::Bool(true)), Cell::Leaf(Leaf::Bool(false)));
    let (seven, one) = (Cell::Leaf(Leaf::Int(7)), Cell::Leaf(Leaf::Int(1)));
    all.push(four(alloc, seven, on, one, Cell::Leaf(Leaf::Unit))?)?;
    all.push(four(alloc, Cell::Absent, off, Cell::NotEmitted, Cell::NotEmitted)?)?;
    Ok(all)
}

#[test]
fn the_form_of_lines(rt: HostRuntime) -> Result<(), Fail> {
    let alloc = rt.alloc();
    let sig = signature(alloc)?;
    let form = form(alloc, List::new(alloc), &Names::new(alloc), &sig)?;
    let shown = format!(in alloc; "{:?}", form.fields)?;
    assert_eq!(rt;
        shown.as_str(),
        "List { items: [Field { shape: Int, on: List { items: [(1, Bool(true))] }, signal: None }, Field { shape: Bool, on: List { items: [] }, signal: None }, Field { shape: Int, on: List { items: [] }, signal: Some(0) }, Field { shape: Unit, on: List { items: [] }, signal: Some(0) }] }"
    );
    Ok(())
}

#[test]
fn what_lines_give(rt: HostRuntime) -> Result<(), Fail> {
    let alloc = rt.alloc();
    let sig = signature(alloc)?;
    let given = columns(alloc, &sig, lines(alloc)?.as_slice())?;
    let shown = format!(in alloc; "{:?}", given)?;
    assert_eq!(rt;
        shown.as_str(),
        "List { items: [List { items: [Some(Present(Leaf(Int(7)))), Some(Absent)] }, List { items: [Some(Absent), Some(Present(Leaf(Unit)))] }, List { items: [Some(Present(Leaf(Bool(true)))), Some(Present(Leaf(Bool(false))))] }, List { items: [Some(Present(Tuple(List { items: [Leaf(Int(1)), Leaf(Unit)] }))), Some(Silent)] }] }"
    );
    Ok(())
}

#[test]
fn what_results_write(rt: HostRuntime) -> Result<(), Fail> {
    let alloc = rt.alloc();
    let sig = signature(alloc)?;
    let nil = kahn_model::Cell::Present(Value::Leaf(Leaf::Nil));
    let first = format!(in alloc; "{:?}", result_cells(alloc, &sig.result, Some(&nil))?)?;
    assert_eq!(rt; first.as_str(), "List { items: [Leaf(Nil), Leaf(Nil)] }");
    let silent = kahn_model::Cell::Silent;
    let second = format!(in alloc; "{:?}", result_cells(alloc, &sig.result, Some(&silent))?)?;
    assert_eq!(rt; second.as_str(), "List { items: [NotEmitted, NotEmitted] }");
    let third = format!(in alloc; "{:?}", result_cells(alloc, &sig.result, None)?)?;
    assert_eq!(rt; third.as_str(), "List { items: [Absent, Absent] }");
    Ok(())
}

#[test]
fn which_definitions_run(rt: HostRuntime) -> Result<(), Fail> {
    let alloc = rt.alloc();
    let mut sig = signature(alloc)?;
    let mut init = InitSig {
        may: List::new(alloc),
        reaches: List::new(alloc),
        own: false,
    };
    assert_eq!(rt; node_fault(&sig, &init), None);
    init.own = true;
    assert_eq!(rt; node_fault(&sig, &init), Some(NodeFault::NotInitialised));
    sig.result = TypeTerm::Var(0);
    assert_eq!(rt; node_fault(&sig, &init), Some(NodeFault::NotRunnable));
    Ok(())
}

#[test]
fn constructors_of_a_file(rt: HostRuntime) -> Result<(), Fail> {
    let alloc = rt.alloc();
    let mut cases = List::new(alloc);
    cases.push(Name(4))?;
    let mut file: List<DefOf<Note>> = List::new(alloc);
    file.push(DefOf::Cases {
        line: Line(1),
        name: Name(3),
        cases,
    })?;
    let shown = format!(in alloc; "{:?}", constructors(alloc, file.as_slice())?)?;
    assert_eq!(rt;
        shown.as_str(),
        "List { items: [List { items: [Name(4)] }] }"
    );
    Ok(())
}
