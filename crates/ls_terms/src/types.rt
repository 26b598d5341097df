//! The terms of types (after Damas and Milner 1982).

ghost use Rattle.std.specs.Prelude.{◌≡◌, map, IfOk};
ghost use Rattle.term_unify.specs.Terms.{first};
ghost use Rattle.ls_terms.specs.Types as spec;

use ls_base::{Boxed, List, NoMemory, NoteCopy};
use std::alloc::Global;
use term_unify::{Subst, Term};

/// Whether a function keeps no state, or may.
#[derive(Clone, Copy, Debug, PartialEq, Eq)]
pub enum Kind {
    Comb,
    Seq,
}

/// A type. Variables and enumerations go by their numbers.
#[derive(Debug, Drop)]
pub enum TypeTerm {
    Var(u32),
    Int,
    Bool,
    Char,
    Text,
    Unit,
    Enum(u32),
    Tuple(List<TypeTerm>),
    Arrow(Kind, List<TypeTerm>, Boxed<TypeTerm>),
    Signal(Boxed<TypeTerm>),
}

impl Term for TypeTerm {
    ghost use Rattle.ls_terms.specs.Types as spec;

    ghost size = { spec.size };

    ghost alike = { spec.alike };

    ghost kids = { spec.kids };

    ghost var_of = { spec.var_of };

    ghost stands = { spec.stands };

    ghost apply = { spec.apply };

    ghost size_is = { spec.size_is };

    ghost alike_self = { spec.alike_self };

    ghost alike_back = { spec.alike_back };

    ghost alike_along = { spec.alike_along };

    ghost alike_kids = { spec.alike_kids };

    ghost alike_same = { spec.alike_same };

    ghost alike_var = { spec.alike_var };

    ghost alike_stands = { spec.alike_stands };

    ghost var_same = { spec.var_same };

    ghost var_kids = { spec.var_kids };

    ghost var_stands = { spec.var_stands };

    ghost apply_var = { spec.apply_var };

    ghost apply_alike = { spec.apply_alike };

    ghost apply_kids = { spec.apply_kids };

    fn as_var(&self) -> Option<u32> {
        match self {
            TypeTerm::Var(x) => Some(*x),
            _ => None,
        }
    }

    fn parts(&self) -> usize {
        match self {
            TypeTerm::Tuple(all) => all.len(),
            TypeTerm::Arrow(_, all, _) => all.len() + 1,
            TypeTerm::Signal(_) => 1,
            _ => 0,
        }
    }

    fn part(&self, at: usize) -> &TypeTerm {
        match self {
            TypeTerm::Tuple(all) => match all.get(at) {
                Some(t) => t,
                None => self,
            },
            TypeTerm::Arrow(_, all, to) => match all.get(at) {
                Some(t) => t,
                None => to.get(),
            },
            TypeTerm::Signal(of) => of.get(),
            _ => self,
        }
    }

    fn same_head(&self, other: &TypeTerm) -> bool {
        match (self, other) {
            (TypeTerm::Var(x), TypeTerm::Var(y)) => x == y,
            (TypeTerm::Int, TypeTerm::Int) => true,
            (TypeTerm::Bool, TypeTerm::Bool) => true,
            (TypeTerm::Char, TypeTerm::Char) => true,
            (TypeTerm::Text, TypeTerm::Text) => true,
            (TypeTerm::Unit, TypeTerm::Unit) => true,
            (TypeTerm::Enum(x), TypeTerm::Enum(y)) => x == y,
            (TypeTerm::Tuple(a), TypeTerm::Tuple(b)) => a.len() == b.len(),
            (TypeTerm::Arrow(k, a, _), TypeTerm::Arrow(m, b, _)) => a.len() == b.len() && k == m,
            (TypeTerm::Signal(_), TypeTerm::Signal(_)) => true,
            _ => false,
        }
    }

    fn may_stand(&self) -> bool {
        !matches!(self, TypeTerm::Arrow(..) | TypeTerm::Signal(_))
    }

    fn put(&self, alloc: Global, by: &Subst<TypeTerm>) -> Result<TypeTerm, NoMemory> {
        put(alloc, self, by)
    }
}

#[cycle(put)]
fn put_all(
    alloc: Global,
    all: &[TypeTerm],
    by: &Subst<TypeTerm>,
) -> Result<List<TypeTerm>, NoMemory>
    ensures { IfOk result (λ r. r ≡ map (spec.apply (first by.now.list)) all.now) }
{
    let mut done = List::new(alloc);
    for t in all {
        done.push(put(alloc, t, by)?)?;
    }
    Ok(done)
}

#[cycle(put)]
fn put(alloc: Global, t: &TypeTerm, by: &Subst<TypeTerm>) -> Result<TypeTerm, NoMemory>
    ensures { IfOk result (λ r. r ≡ spec.apply (first by.now.list) t.now) }
{
    match t {
        TypeTerm::Var(x) => match by.get(*x) {
            Some(value) => value.copy(alloc),
            None => Ok(TypeTerm::Var(*x)),
        },
        TypeTerm::Int => Ok(TypeTerm::Int),
        TypeTerm::Bool => Ok(TypeTerm::Bool),
        TypeTerm::Char => Ok(TypeTerm::Char),
        TypeTerm::Text => Ok(TypeTerm::Text),
        TypeTerm::Unit => Ok(TypeTerm::Unit),
        TypeTerm::Enum(x) => Ok(TypeTerm::Enum(*x)),
        TypeTerm::Tuple(all) => Ok(TypeTerm::Tuple(put_all(alloc, all.as_slice(), by)?)),
        TypeTerm::Arrow(kind, all, to) => Ok(TypeTerm::Arrow(
            *kind,
            put_all(alloc, all.as_slice(), by)?,
            Boxed::new(alloc, put(alloc, to.get(), by)?)?,
        )),
        TypeTerm::Signal(of) => Ok(TypeTerm::Signal(Boxed::new(alloc, put(alloc, of.get(), by)?)?)),
    }
}

#[cycle(copy)]
fn copy_all(alloc: Global, all: &[TypeTerm]) -> Result<List<TypeTerm>, NoMemory>
    ensures { IfOk result (λ r. r ≡ all.now) }
{
    let mut done = List::new(alloc);
    for t in all {
        done.push(t.copy(alloc)?)?;
    }
    Ok(done)
}

impl NoteCopy for TypeTerm {
    #[cycle(copy)]
    fn copy(&self, alloc: Global) -> Result<TypeTerm, NoMemory> {
        match self {
            TypeTerm::Var(x) => Ok(TypeTerm::Var(*x)),
            TypeTerm::Int => Ok(TypeTerm::Int),
            TypeTerm::Bool => Ok(TypeTerm::Bool),
            TypeTerm::Char => Ok(TypeTerm::Char),
            TypeTerm::Text => Ok(TypeTerm::Text),
            TypeTerm::Unit => Ok(TypeTerm::Unit),
            TypeTerm::Enum(x) => Ok(TypeTerm::Enum(*x)),
            TypeTerm::Tuple(all) => Ok(TypeTerm::Tuple(copy_all(alloc, all.as_slice())?)),
            TypeTerm::Arrow(kind, all, to) => Ok(TypeTerm::Arrow(
                *kind,
                copy_all(alloc, all.as_slice())?,
                Boxed::new(alloc, to.get().copy(alloc)?)?,
            )),
            TypeTerm::Signal(of) => Ok(TypeTerm::Signal(Boxed::new(alloc, of.get().copy(alloc)?)?)),
        }
    }
}
