//! What terms of types mention, and terms with other variables.

ghost use Rattle.std.specs.Prelude.{◌≡◌, ◌+◌, map, IfOk};
ghost use Rattle.type_rules.specs.Demands.{above, shifted};
ghost use Rattle.type_rules.specs.Schemes.{vars, is_data, joined, every};

use ls_base::{Boxed, List, NoMemory};
use ls_terms::TypeTerm;
use std::alloc::Global;

/// The number after the greatest of the variables of a term, and 0 where there is none.
#[cycle(above)]
pub fn above_term(t: &TypeTerm) -> u64
    ensures { result ≡ above (vars t.now) }
{
    match t {
        TypeTerm::Var(x) => u64::from(*x) + 1,
        TypeTerm::Tuple(all) => above_all(all.as_slice()),
        TypeTerm::Arrow(_, all, to) => above_all(all.as_slice()).max(above_term(to.get())),
        TypeTerm::Signal(of) => above_term(of.get()),
        TypeTerm::Int => 0,
        TypeTerm::Bool => 0,
        TypeTerm::Char => 0,
        TypeTerm::Text => 0,
        TypeTerm::Unit => 0,
        TypeTerm::Enum(_) => 0,
    }
}

#[cycle(above)]
fn above_all(all: &[TypeTerm]) -> u64
    ensures { result ≡ above (joined (map vars all.now)) }
{
    let mut most = 0;
    for t in all {
        most = above_term(t).max(most);
    }
    most
}

/// Whether a term is data: no function and no signal stands anywhere in it.
#[cycle(data)]
pub fn is_data_term(t: &TypeTerm) -> bool
    ensures { result ≡ is_data t.now }
{
    match t {
        TypeTerm::Arrow(_, _, _) => false,
        TypeTerm::Signal(_) => false,
        TypeTerm::Tuple(all) => are_data_terms(all.as_slice()),
        TypeTerm::Var(_) => true,
        TypeTerm::Int => true,
        TypeTerm::Bool => true,
        TypeTerm::Char => true,
        TypeTerm::Text => true,
        TypeTerm::Unit => true,
        TypeTerm::Enum(_) => true,
    }
}

#[cycle(data)]
fn are_data_terms(all: &[TypeTerm]) -> bool
    ensures { result ≡ every (map is_data all.now) }
{
    for t in all {
        if !is_data_term(t) {
            return false;
        }
    }
    true
}

/// The variable of this number behind so many others.
pub fn variable(first: u32, x: u32) -> Result<TypeTerm, NoMemory>
    ensures { IfOk result (λ r. r ≡ TypeTerm.Var (first + x)) }
{
    match first.checked_add(x) {
        Some(number) => Ok(TypeTerm::Var(number)),
        None => Err(NoMemory),
    }
}

/// The term with its variables behind so many others. It is refused where memory is, and where a
/// variable would have too great a number.
#[cycle(shift)]
pub fn shift(alloc: Global, first: u32, t: &TypeTerm) -> Result<TypeTerm, NoMemory>
    ensures { IfOk result (λ r. r ≡ shifted first t.now) }
{
    match t {
        TypeTerm::Var(x) => variable(first, *x),
        TypeTerm::Int => Ok(TypeTerm::Int),
        TypeTerm::Bool => Ok(TypeTerm::Bool),
        TypeTerm::Char => Ok(TypeTerm::Char),
        TypeTerm::Text => Ok(TypeTerm::Text),
        TypeTerm::Unit => Ok(TypeTerm::Unit),
        TypeTerm::Enum(e) => Ok(TypeTerm::Enum(*e)),
        TypeTerm::Tuple(all) => Ok(TypeTerm::Tuple(shift_all(alloc, first, all.as_slice())?)),
        TypeTerm::Arrow(kind, all, to) => {
            let all = shift_all(alloc, first, all.as_slice())?;
            let to = shift(alloc, first, to.get())?;
            Ok(TypeTerm::Arrow(*kind, all, Boxed::new(alloc, to)?))
        }
        TypeTerm::Signal(of) => {
            let of = shift(alloc, first, of.get())?;
            Ok(TypeTerm::Signal(Boxed::new(alloc, of)?))
        }
    }
}

#[cycle(shift)]
fn shift_all(alloc: Global, first: u32, all: &[TypeTerm]) -> Result<List<TypeTerm>, NoMemory>
    ensures { IfOk result (λ r. r ≡ map (shifted first) all.now) }
{
    let mut done = List::new(alloc);
    for t in all {
        done.push(shift(alloc, first, t)?)?;
    }
    Ok(done)
}
