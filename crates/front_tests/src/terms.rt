//! Unification of the terms of types and of clocks.

ghost use Rattle.std.specs.Prelude.{◌≤◌};

use ls_base::{Boxed, List, NoMemory};
use ls_terms::{ClockTerm, Kind, TypeTerm};
use std::alloc::Global;
use term_unify::{Pairs, Subst, Term, UnifyFault, unify};

const LIMIT: u32 = 4096;

fn one<T: Term>(alloc: Global, left: T, right: T) -> Result<Pairs<T>, NoMemory> {
    let mut list = List::new(alloc);
    list.push((left, right))?;
    Ok(Pairs { list })
}

/// Whether pairs clash.
fn clash<T: Term>(alloc: Global, pairs: &Pairs<T>, limit: u32) -> Result<&'static str, NoMemory>
    requires { 1 ≤ limit }
{
    match unify(alloc, pairs, limit) {
        Err(UnifyFault::Clash) => Ok("clash"),
        Err(UnifyFault::NoMemory) => Err(NoMemory),
        Ok(_) => Ok("unify"),
    }
}

fn told<T: Term>(alloc: Global, left: T, right: T) -> Result<String, NoMemory> {
    let pairs = one(alloc, left, right)?;
    Ok(String::from_str(alloc, clash(alloc, &pairs, LIMIT)?)?)
}

/// What makes pairs equal.
fn unifier<T: Term>(alloc: Global, pairs: &Pairs<T>, limit: u32) -> Result<Subst<T>, NoMemory>
    requires { 1 ≤ limit }
{
    match unify(alloc, pairs, limit) {
        Ok(found) => Ok(found),
        Err(UnifyFault::Clash) => Ok(Subst::new(alloc)),
        Err(UnifyFault::NoMemory) => Err(NoMemory),
    }
}

fn twice(alloc: Global, variable: u32) -> Result<TypeTerm, NoMemory> {
    let mut all = List::new(alloc);
    all.push(TypeTerm::Var(variable))?;
    all.push(TypeTerm::Var(variable))?;
    Ok(TypeTerm::Tuple(all))
}

fn arrow(alloc: Global, kind: Kind, from: TypeTerm, to: TypeTerm) -> Result<TypeTerm, NoMemory> {
    let mut all = List::new(alloc);
    all.push(from)?;
    Ok(TypeTerm::Arrow(kind, all, Boxed::new(alloc, to)?))
}

/// `int -> int` or `int => int`
fn function(alloc: Global, kind: Kind) -> Result<TypeTerm, NoMemory> {
    arrow(alloc, kind, TypeTerm::Int, TypeTerm::Int)
}

fn on(alloc: Global, of: ClockTerm, name: u32, case: u32) -> Result<ClockTerm, NoMemory> {
    Ok(ClockTerm::On(Boxed::new(alloc, of)?, name, case))
}

/// Variable 0 and int: how many are listed, the first of them, and what 0 and 1 stand for.
fn variable(alloc: Global) -> Result<String, NoMemory> {
    let pairs = one(alloc, TypeTerm::Var(0), TypeTerm::Int)?;
    let found = unifier(alloc, &pairs, LIMIT)?;
    let (count, first) = (found.list.len(), found.list.get(0));
    Ok(format!(in alloc; "{count} {first:?} {:?} {:?}", found.get(0), found.get(1))?)
}

/// `'a3 => 'a3 * 'a3` and `char => 'a5`: how many are listed, and what 3 and 5 stand for.
fn parts(alloc: Global, limit: u32) -> Result<String, NoMemory>
    requires { 1 ≤ limit }
{
    let left = arrow(alloc, Kind::Seq, TypeTerm::Var(3), twice(alloc, 3)?)?;
    let right = arrow(alloc, Kind::Seq, TypeTerm::Char, TypeTerm::Var(5))?;
    let pairs = one(alloc, left, right)?;
    let found = unifier(alloc, &pairs, limit)?;
    let count = found.list.len();
    let fault = clash(alloc, &pairs, limit)?;
    Ok(format!(in alloc; "{fault} {count} {:?} {:?}", found.get(3), found.get(5))?)
}

/// Forty values, each of which is twice the next.
fn doubles(alloc: Global, limit: u32) -> Result<String, NoMemory>
    requires { 1 ≤ limit }
{
    let mut list = List::new(alloc);
    for variable in 0..40_u32 {
        list.push((TypeTerm::Var(variable), twice(alloc, variable + 1)?))?;
    }
    let pairs = Pairs { list };
    Ok(String::from_str(alloc, clash(alloc, &pairs, limit)?)?)
}

/// 20,000 variables in a chain, beside as many pairs: how many are listed, and what the last one
/// stands for.
fn chain(alloc: Global) -> Result<String, NoMemory> {
    let mut list = List::new(alloc);
    for variable in 0..20_000_u32 {
        list.push((TypeTerm::Var(variable), TypeTerm::Var(variable + 1)))?;
        list.push((TypeTerm::Var(variable + 30_000), twice(alloc, variable)?))?;
    }
    list.push((TypeTerm::Var(7), TypeTerm::Enum(3)))?;
    let pairs = Pairs { list };
    let found = unifier(alloc, &pairs, LIMIT)?;
    Ok(format!(in alloc; "{} {:?}", found.list.len(), found.get(20_000))?)
}

/// `1 on 4 0` and `0 on 2 1 on 4 0`: how many are listed, and what 1 stands for.
fn clocks(alloc: Global) -> Result<String, NoMemory> {
    let left = on(alloc, ClockTerm::Var(1), 4, 0)?;
    let right = on(alloc, on(alloc, ClockTerm::Var(0), 2, 1)?, 4, 0)?;
    let pairs = one(alloc, left, right)?;
    let found = unifier(alloc, &pairs, 2)?;
    Ok(format!(in alloc; "{} {:?}", found.list.len(), found.get(1))?)
}

/// A variable that is listed twice, and one that is not: what they stand for in terms.
fn first_entry(alloc: Global) -> Result<String, NoMemory> {
    let mut by = Subst::new(alloc);
    by.push(2, TypeTerm::Text)?;
    by.push(2, TypeTerm::Unit)?;
    let listed = twice(alloc, 2)?.put(alloc, &by)?;
    let other = TypeTerm::Var(1).put(alloc, &by)?;
    Ok(format!(in alloc; "{:?} {listed:?} {other:?}", by.get(2))?)
}

/// The answer to a question about two types.
fn types(alloc: Global, of: &str) -> Result<String, NoMemory> {
    let v = TypeTerm::Var(0);
    match of {
        "int and bool" => told(alloc, TypeTerm::Int, TypeTerm::Bool),
        "two enumerations" => told(alloc, TypeTerm::Enum(1), TypeTerm::Enum(2)),
        "a variable and twice itself" => told(alloc, v, twice(alloc, 0)?),
        "a variable and a function" => told(alloc, v, function(alloc, Kind::Comb)?),
        "a signal and a variable" => {
            let signal = TypeTerm::Signal(Boxed::new(alloc, TypeTerm::Int)?);
            told(alloc, signal, v)
        }
        _ => told(
            alloc,
            function(alloc, Kind::Comb)?,
            function(alloc, Kind::Seq)?,
        ),
    }
}

/// The answer to a question about two clocks.
fn two_clocks(alloc: Global, of: &str) -> Result<String, NoMemory> {
    let first = on(alloc, ClockTerm::Var(0), 4, 0)?;
    match of {
        "two cases" => told(alloc, first, on(alloc, ClockTerm::Var(0), 4, 1)?),
        "a variable and pointwise" => told(alloc, ClockTerm::Var(0), ClockTerm::Pointwise),
        _ => told(
            alloc,
            ClockTerm::Var(0),
            on(alloc, ClockTerm::Var(0), 1, 1)?,
        ),
    }
}

/// The answer to a question about terms.
pub fn answer(alloc: Global, of: &str) -> Result<String, NoMemory> {
    match of {
        "a variable and int" => variable(alloc),
        "parts of functions, limit 3" => parts(alloc, 3),
        "parts of functions, limit 2" => parts(alloc, 2),
        "values that double" => doubles(alloc, LIMIT),
        "values that double, no limit" => doubles(alloc, u32::MAX),
        "many variables" => chain(alloc),
        "clocks" => clocks(alloc),
        "the first entry counts" => first_entry(alloc),
        _ => match of.split_once(": ") {
            Some(("types", of)) => types(alloc, of),
            Some((_, of)) => two_clocks(alloc, of),
            None => Ok(String::from_str(alloc, "no such question")?),
        },
    }
}
