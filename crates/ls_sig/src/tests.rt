use crate::{Binder, InitSig, InitSigs, Item, Note, Ranks, Sig, TypeNote, Use};
use ls_ast::Mark;
use ls_base::{Boxed, List, Name, NoMemory, NoteCopy};
use ls_terms::{ClockTerm, Kind, TypeTerm};
use std::alloc::Global;
use std::test::Fail;

fn clock(alloc: Global) -> Result<ClockTerm, NoMemory> {
    Ok(ClockTerm::On(Boxed::new(alloc, ClockTerm::Var(3))?, 1, 0))
}

fn note(alloc: Global) -> Result<Note, NoMemory> {
    let mut restarts = List::new(alloc);
    restarts.push(6)?;
    Ok(Note {
        bound: Binder::Case(1, 2),
        ty: TypeTerm::Signal(Boxed::new(alloc, TypeTerm::Int)?),
        ck: clock(alloc)?,
        restarts,
    })
}

fn signature(alloc: Global) -> Result<Sig, NoMemory> {
    let mut marks = List::new(alloc);
    marks.push(Mark::Clock)?;
    let mut params = List::new(alloc);
    params.push(TypeTerm::Bool)?;
    let mut clocks = List::new(alloc);
    clocks.push(ClockTerm::Var(0))?;
    let mut clock_names = List::new(alloc);
    clock_names.push(0)?;
    Ok(Sig {
        name: Name(7),
        kind: Kind::Seq,
        marks,
        params,
        result: TypeTerm::Enum(4),
        clocks,
        result_clock: clock(alloc)?,
        clock_names,
    })
}

fn initialisation(alloc: Global) -> Result<InitSigs, NoMemory> {
    let mut may = List::new(alloc);
    may.push(true)?;
    let mut reaches = List::new(alloc);
    reaches.push(false)?;
    let mut list = List::new(alloc);
    list.push(InitSig {
        may,
        reaches,
        own: true,
    })?;
    Ok(InitSigs { list })
}

fn numbering(alloc: Global) -> Result<Ranks, NoMemory> {
    let mut one = List::new(alloc);
    one.push((Item::Tested(1), 5))?;
    let mut list = List::new(alloc);
    list.push(one)?;
    Ok(Ranks { list })
}

#[test]
fn copies(rt: HostRuntime) -> Result<(), Fail> {
    let alloc = rt.alloc();
    let used = Use {
        bound: Binder::Param(2),
    };
    let first = format!(in alloc; "{:?}", used.copy(alloc)?)?;
    assert_eq!(rt; first.as_str(), "Use { bound: Param(2) }");
    let typed = TypeNote {
        bound: Binder::Def(1),
        ty: TypeTerm::Text,
    };
    let second = format!(in alloc; "{:?}", typed.copy(alloc)?)?;
    assert_eq!(rt; second.as_str(), "TypeNote { bound: Def(1), ty: Text }");
    let third = format!(in alloc; "{:?}", note(alloc)?)?;
    let fourth = format!(in alloc; "{:?}", note(alloc)?.copy(alloc)?)?;
    assert_eq!(rt; third.as_str(), fourth.as_str());
    let fifth = format!(in alloc; "{:?}", Binder::Var(9).copy(alloc)?)?;
    assert_eq!(rt; fifth.as_str(), "Var(9)");
    Ok(())
}

#[test]
fn copies_of_signatures(rt: HostRuntime) -> Result<(), Fail> {
    let alloc = rt.alloc();
    let first = format!(in alloc; "{:?}", signature(alloc)?)?;
    let second = format!(in alloc; "{:?}", signature(alloc)?.copy(alloc)?)?;
    assert_eq!(rt; first.as_str(), second.as_str());
    let third = format!(in alloc; "{:?}", initialisation(alloc)?)?;
    let fourth = format!(in alloc; "{:?}", initialisation(alloc)?.copy(alloc)?)?;
    assert_eq!(rt; third.as_str(), fourth.as_str());
    let fifth = format!(in alloc; "{:?}", numbering(alloc)?)?;
    let sixth = format!(in alloc; "{:?}", numbering(alloc)?.copy(alloc)?)?;
    assert_eq!(rt; fifth.as_str(), sixth.as_str());
    Ok(())
}
