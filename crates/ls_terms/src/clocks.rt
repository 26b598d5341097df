//! The terms of clocks: clocks as types with abstract names (after Colaço and Pouzet 2003).

ghost use Rattle.std.specs.Prelude.{◌≡◌, map, IfOk};
ghost use Rattle.term_unify.specs.Terms.{first};
ghost use Rattle.ls_terms.specs.Clocks as spec;

use ls_base::{Boxed, List, NoMemory, NoteCopy};
use std::alloc::Global;
use term_unify::{Subst, Term};

/// A clock. `On(clock, name, case)` is on where `clock` is on and the value under the name is
/// that case; names and cases go by their numbers.
#[derive(Debug, Drop)]
pub enum ClockTerm {
    Var(u32),
    On(Boxed<ClockTerm>, u32, u32),
    Pointwise,
    Arrow(List<ClockTerm>, Boxed<ClockTerm>),
}

impl Term for ClockTerm {
    ghost use Rattle.ls_terms.specs.Clocks as spec;

    ghost size = { spec.size };

    ghost alike = { spec.alike };

    ghost kids = { spec.kids };

    ghost var_of = { spec.var_of };

    ghost stands = { spec.stands };

    ghost apply = { spec.apply };

    ghost size_is = { spec.size_is };

    ghost alike_self = { spec.alike_self };

    ghost alike_back = { spec.alike_back };

    ghost alike_along = { spec.alike_along };

    ghost alike_kids = { spec.alike_kids };

    ghost alike_same = { spec.alike_same };

    ghost alike_var = { spec.alike_var };

    ghost alike_stands = { spec.alike_stands };

    ghost var_same = { spec.var_same };

    ghost var_kids = { spec.var_kids };

    ghost var_stands = { spec.var_stands };

    ghost apply_var = { spec.apply_var };

    ghost apply_alike = { spec.apply_alike };

    ghost apply_kids = { spec.apply_kids };

    fn as_var(&self) -> Option<u32> {
        match self {
            ClockTerm::Var(x) => Some(*x),
            _ => None,
        }
    }

    fn parts(&self) -> usize {
        match self {
            ClockTerm::On(_, _, _) => 1,
            ClockTerm::Arrow(all, _) => all.len() + 1,
            _ => 0,
        }
    }

    fn part(&self, at: usize) -> &ClockTerm {
        match self {
            ClockTerm::On(of, _, _) => of.get(),
            ClockTerm::Arrow(all, to) => match all.get(at) {
                Some(t) => t,
                None => to.get(),
            },
            _ => self,
        }
    }

    fn same_head(&self, other: &ClockTerm) -> bool {
        match (self, other) {
            (ClockTerm::Var(x), ClockTerm::Var(y)) => x == y,
            (ClockTerm::On(_, m, k), ClockTerm::On(_, n, l)) => m == n && k == l,
            (ClockTerm::Pointwise, ClockTerm::Pointwise) => true,
            (ClockTerm::Arrow(a, _), ClockTerm::Arrow(b, _)) => a.len() == b.len(),
            _ => false,
        }
    }

    fn may_stand(&self) -> bool {
        matches!(self, ClockTerm::Var(_) | ClockTerm::On(..))
    }

    fn put(&self, alloc: Global, by: &Subst<ClockTerm>) -> Result<ClockTerm, NoMemory> {
        put(alloc, self, by)
    }
}

#[cycle(put)]
fn put_all(
    alloc: Global,
    all: &[ClockTerm],
    by: &Subst<ClockTerm>,
) -> Result<List<ClockTerm>, NoMemory>
    ensures { IfOk result (λ r. r ≡ map (spec.apply (first by.now.list)) all.now) }
{
    let mut done = List::new(alloc);
    for t in all {
        done.push(put(alloc, t, by)?)?;
    }
    Ok(done)
}

#[cycle(put)]
fn put(alloc: Global, t: &ClockTerm, by: &Subst<ClockTerm>) -> Result<ClockTerm, NoMemory>
    ensures { IfOk result (λ r. r ≡ spec.apply (first by.now.list) t.now) }
{
    match t {
        ClockTerm::Var(x) => match by.get(*x) {
            Some(value) => value.copy(alloc),
            None => Ok(ClockTerm::Var(*x)),
        },
        ClockTerm::On(of, name, case) => Ok(ClockTerm::On(
            Boxed::new(alloc, put(alloc, of.get(), by)?)?,
            *name,
            *case,
        )),
        ClockTerm::Pointwise => Ok(ClockTerm::Pointwise),
        ClockTerm::Arrow(all, to) => Ok(ClockTerm::Arrow(
            put_all(alloc, all.as_slice(), by)?,
            Boxed::new(alloc, put(alloc, to.get(), by)?)?,
        )),
    }
}

#[cycle(copy)]
fn copy_all(alloc: Global, all: &[ClockTerm]) -> Result<List<ClockTerm>, NoMemory>
    ensures { IfOk result (λ r. r ≡ all.now) }
{
    let mut done = List::new(alloc);
    for t in all {
        done.push(t.copy(alloc)?)?;
    }
    Ok(done)
}

impl NoteCopy for ClockTerm {
    #[cycle(copy)]
    fn copy(&self, alloc: Global) -> Result<ClockTerm, NoMemory> {
        match self {
            ClockTerm::Var(x) => Ok(ClockTerm::Var(*x)),
            ClockTerm::On(of, name, case) => {
                Ok(ClockTerm::On(Boxed::new(alloc, of.get().copy(alloc)?)?, *name, *case))
            }
            ClockTerm::Pointwise => Ok(ClockTerm::Pointwise),
            ClockTerm::Arrow(all, to) => Ok(ClockTerm::Arrow(
                copy_all(alloc, all.as_slice())?,
                Boxed::new(alloc, to.get().copy(alloc)?)?,
            )),
        }
    }
}
