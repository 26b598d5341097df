//! Small trees, with their notes counted by hand.

use crate::{
    Copier, Counter, Given, Placer, erase_definition, renote_definition, renote_equation,
    renote_expr,
};
use ls_ast::{BodyOf, Def, DefOf, Equation, Expr, Form, Mark, Pat, Plain};
use ls_base::{Boxed, Line, List, Name, NoMemory};
use std::alloc::Global;
use std::test::Fail;

fn var<N: Drop>(alloc: Global, note: N, name: u32) -> Result<Expr<N>, NoMemory> {
    Ok(Expr {
        note,
        form: Boxed::new(alloc, Form::Var(Name(name)))?,
    })
}

// `x fby y`
fn delay<N: Drop>(alloc: Global, note: N, x: Expr<N>, y: Expr<N>) -> Result<Expr<N>, NoMemory> {
    Ok(Expr {
        note,
        form: Boxed::new(alloc, Form::Fby(x, y))?,
    })
}

// `reset y = x fby c every c`
fn reset(alloc: Global) -> Result<Equation<Plain>, NoMemory> {
    let right = delay(alloc, Plain, var(alloc, Plain, 0)?, var(alloc, Plain, 2)?)?;
    let mut eqs = List::new(alloc);
    eqs.push(Equation::Plain(Pat::Var(Name(1)), right))?;
    Ok(Equation::Reset(eqs, var(alloc, Plain, 2)?))
}

// `let node f x = y where rec reset y = x fby c every c`
fn definition(alloc: Global) -> Result<Def, NoMemory> {
    let mut params = List::new(alloc);
    params.push(Pat::Var(Name(0)))?;
    let mut marks = List::new(alloc);
    marks.push(Mark::Data)?;
    let mut notes = List::new(alloc);
    notes.push(Plain)?;
    let mut eqs = List::new(alloc);
    eqs.push(reset(alloc)?)?;
    let result = var(alloc, Plain, 1)?;
    Ok(DefOf::Let {
        line: Line(3),
        node: true,
        name: Name(4),
        params,
        marks,
        notes,
        body: BodyOf { result, eqs },
    })
}

// The notes of the condition, and of the right side of the one equation in a `reset`.
fn reset_notes(eq: &Equation<u32>) -> Option<(u32, u32)> {
    match eq {
        Equation::Reset(eqs, e) => match eqs.get(0) {
            Some(Equation::Plain(_, right)) => Some((e.note, right.note)),
            _ => None,
        },
        _ => None,
    }
}

// The note of the one parameter, of the result, and of the condition.
fn definition_notes(def: &DefOf<u32>) -> Option<(u32, u32, u32)> {
    match def {
        DefOf::Let { notes, body, .. } => match (notes.get(0), body.eqs.get(0)) {
            (Some(parameter), Some(Equation::Reset(_, e))) => Some((
                *parameter,
                body.result.note,
                e.note,
            )),
            _ => None,
        },
        DefOf::Cases { .. } => None,
    }
}

#[test]
fn notes_are_counted_in_order(rt: HostRuntime) -> Result<(), Fail> {
    let alloc = rt.alloc();
    let mut by = Counter { next: 7 };
    let eq = renote_equation(alloc, &reset(alloc)?, &mut by)?;
    assert_eq!(rt; reset_notes(&eq), Some((7, 8)));
    assert_eq!(rt; by.next, 11);
    let mut by = Counter { next: 0 };
    let def = renote_definition(alloc, &definition(alloc)?, &mut by)?;
    assert_eq!(rt; definition_notes(&def), Some((0, 5, 1)));
    assert_eq!(rt; by.next, 6);
    Ok(())
}

#[test]
fn erased_it_is_as_before(rt: HostRuntime) -> Result<(), Fail> {
    let alloc = rt.alloc();
    let def = definition(alloc)?;
    let mut by = Counter { next: 2 };
    let numbered = renote_definition(alloc, &def, &mut by)?;
    let erased = erase_definition(alloc, &numbered)?;
    let text = format!(in alloc; "{:?}", erased)?;
    let wanted = format!(in alloc; "{:?}", def)?;
    assert_eq!(rt; text.as_str(), wanted.as_str());
    Ok(())
}

#[test]
fn notes_that_are_kept_or_given(rt: HostRuntime) -> Result<(), Fail> {
    let alloc = rt.alloc();
    let e = delay(alloc, 9, var(alloc, 8, 0)?, var(alloc, 7, 1)?)?;
    let copy: Expr<u32> = renote_expr(alloc, &e, &mut Copier)?;
    assert_eq!(rt; copy.note, 9);
    let placed: Expr<(u32, u32)> = renote_expr(alloc, &e, &mut Placer { next: 3 })?;
    assert_eq!(rt; placed.note, (9, 3));
    let notes = [true, false];
    let mut by = Given {
        notes: notes.as_slice(),
        next: 1,
        otherwise: &true,
    };
    let given: Expr<bool> = renote_expr(alloc, &e, &mut by)?;
    assert_eq!(rt; given.note, false);
    assert_eq!(rt; by.next, 4);
    Ok(())
}
