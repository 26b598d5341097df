//! Programs of many equations on many lines: they are worked out in seconds where each row is made
//! once, and in hours where each turn makes every row anew and looks each name up. `bench/network`
//! times these tests.

use crate::known::{Known, others};
use crate::rows::write_integer;
use ls_base::NoMemory;
use std::alloc::Global;
use std::test::Fail;

/// `y1 = x` and `yK = yJ + (0 fby x)` for each further K, with J = K - 1.
fn program(alloc: Global, equations: i64) -> Result<String, NoMemory> {
    let mut text = String::from_str(alloc, "let node f x = y")?;
    write_integer(equations, &mut text)?;
    text.push_str(" where rec y1 = x")?;
    for k in 2..=equations {
        text.push_str(" and y")?;
        write_integer(k, &mut text)?;
        text.push_str(" = y")?;
        write_integer(k.saturating_sub(1), &mut text)?;
        text.push_str(" + (0 fby x)")?;
    }
    Ok(text)
}

/// The row `1, 1 + step, ..` with a word for each line.
fn steps(alloc: Global, step: i64, lines: i64) -> Result<String, NoMemory> {
    let mut row = String::new(alloc);
    let mut value = 1;
    for _ in 0..lines {
        row.push_str(" ")?;
        write_integer(value, &mut row)?;
        value = value.saturating_add(step);
    }
    Ok(row)
}

/// Whether the program has its row on `1, 2, ..`: at line i it is i and, for each equation but the
/// first, the line before.
fn holds(alloc: Global, equations: i64, lines: i64) -> Result<bool, Fail> {
    let text = program(alloc, equations)?;
    let arg = steps(alloc, 1, lines)?;
    let row = steps(alloc, equations, lines)?;
    let known = Known {
        what: "many equations",
        node: "f",
        text: text.as_str(),
        hints: &[],
        args: &[arg.as_str()],
        row: row.as_str().trim_start(),
    };
    let others = others(alloc, &[known])?;
    Ok(others.is_empty())
}

#[test]
fn a_thousand_equations(rt: HostRuntime) -> Result<(), Fail> {
    assert!(rt; holds(rt.alloc(), 1_000, 200)?);
    Ok(())
}

#[test]
fn a_hundred_equations(rt: HostRuntime) -> Result<(), Fail> {
    assert!(rt; holds(rt.alloc(), 100, 200)?);
    Ok(())
}

#[test]
fn a_thousand_equations_on_few_lines(rt: HostRuntime) -> Result<(), Fail> {
    assert!(rt; holds(rt.alloc(), 1_000, 20)?);
    Ok(())
}
