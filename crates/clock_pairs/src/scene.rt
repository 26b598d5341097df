//! What the rules are given of a definition, and what names mean there.

ghost use Rattle.std.specs.Prelude.{◌≡◌, [], IfOk};
ghost use Rattle.std.specs.Option.{option_copied};
ghost use Rattle.clock_pairs.specs.Scene as spec;
ghost use Rattle.clock_rules.specs.Facts.{whole_notes};
ghost use Rattle.clock_rules.specs.Rules as rules;
ghost use Rattle.ls_places.specs.Search.{nth};
ghost use Rattle.ls_sig.specs.declared.binder.Note.{Note};

use crate::index::{Index, nth};
use clock_rules::ClockScheme;
use ls_ast::{Case, Mark};
use ls_base::{List, NoMemory, NoteCopy};
use ls_places::{CasePlaces, Variable};
use ls_sig::{Binder, Note};
use ls_terms::ClockTerm;
use std::alloc::Global;

/// A definition with the schemes of those before it, the notes of its parameters and of its result,
/// and the clocks of its variables and blocks.
#[derive(Drop)]
pub struct Scene<'a, C> {
    pub schemes: &'a [ClockScheme],
    pub cases: &'a C,
    pub index: &'a Index,
    pub marks: &'a [Mark],
    pub notes: &'a [Note],
    pub result: &'a Note,
    pub vars: &'a [ClockTerm],
    pub blocks: &'a [ClockTerm],
}

/// A clock, and the arms around the list of equations that binds its name.
pub type Meant = (ClockTerm, List<(u32, u32)>);

/// The clock of this number; past the end one that no stream has.
pub fn clock_at(alloc: Global, clocks: &[ClockTerm], k: usize) -> Result<ClockTerm, NoMemory>
    ensures { IfOk result (λ r. r ≡ rules.at clocks.now k) }
{
    match nth(clocks, k) {
        Some(ck) => ck.copy(alloc),
        None => Ok(ClockTerm::Pointwise),
    }
}

/// The arms around the list that binds a variable.
pub fn list_at(alloc: Global, vars: &List<Variable>, k: u32) -> Result<List<(u32, u32)>, NoMemory>
    ensures { IfOk result (λ r. r ≡ rules.list_at vars.now k) }
{
    match nth(vars.as_slice(), k as usize) {
        Some(variable) => variable.list.copy(alloc),
        None => Ok(List::new(alloc)),
    }
}

impl<C: CasePlaces> Scene<'_, C> {
    /// The clock of the block with this clock name.
    pub fn block(&self, alloc: Global, m: u32) -> Result<ClockTerm, NoMemory>
        ensures { IfOk result (λ r. r ≡ spec.block C.place self.now m) }
    {
        let at = m.saturating_sub(self.index.first());
        clock_at(alloc, self.blocks, at as usize)
    }

    /// The clock of a parameter.
    fn param_clock(&self, alloc: Global, param: Option<u32>) -> Result<Option<ClockTerm>, NoMemory>
        ensures { IfOk result (λ r. r ≡ spec.param_clock C.place self.now param) }
    {
        match param {
            None => Ok(None),
            Some(i) => match nth(self.notes, i as usize) {
                None => Ok(None),
                Some(note) => Ok(Some(note.ck.copy(alloc)?)),
            },
        }
    }

    /// The clock of a parameter, which no arm is around.
    pub fn param(&self, alloc: Global, param: Option<u32>) -> Result<Option<Meant>, NoMemory>
        ensures { IfOk result (λ r. r ≡ spec.with_list C.place self.now [] (spec.param_clock C.place self.now param)) }
    {
        match self.param_clock(alloc, param)? {
            None => Ok(None),
            Some(ck) => Ok(Some((ck, List::new(alloc)))),
        }
    }

    /// The clock of a variable, and the arms around the list that binds it.
    pub fn variable(&self, alloc: Global, k: u32) -> Result<Meant, NoMemory>
        ensures { IfOk result (λ r. r ≡ (rules.at self.now.vars.now k, rules.list_at self.now.index.now.places.vars k)) }
    {
        let ck = clock_at(alloc, self.vars, k as usize)?;
        Ok((ck, list_at(alloc, &self.index.places.vars, k)?))
    }

    /// The clock of what a name means, and the arms around the list that binds it.
    pub fn meaning(&self, alloc: Global, bound: Binder) -> Result<Option<Meant>, NoMemory>
        ensures { IfOk result (λ r. r ≡ spec.meaning C.place self.now bound) }
    {
        match bound {
            Binder::Var(k) => Ok(Some(self.variable(alloc, k)?)),
            Binder::Param(k) => self.param(alloc, self.index.param_at(k)),
            Binder::Nothing => Ok(None),
            Binder::Def(_) => Ok(None),
            Binder::Case(_, _) => Ok(None),
        }
    }

    /// The number of the clock name that is meant, and 0 where none is.
    pub fn number_or(&self, bound: Binder) -> u32
        ensures { result ≡ spec.number_or C.place self.now bound }
    {
        let number = match bound {
            Binder::Var(k) => self.index.clock_name(k),
            Binder::Param(k) => self.index.param_at(k),
            Binder::Nothing => None,
            Binder::Def(_) => None,
            Binder::Case(_, _) => None,
        };
        number.unwrap_or(0)
    }

    /// The number of a case.
    pub fn case_number(&self, case: Case) -> u32
        ensures { result ≡ spec.case_number C.place self.now case }
    {
        match case {
            Case::True => 1,
            Case::False => 0,
            Case::Of(name) => self.cases.place(name.0).unwrap_or(0),
        }
    }

    /// The note of a whole expression, by its number.
    pub fn whole_note(&self, k: u32) -> Option<&Note>
        ensures { option_copied result ≡ nth (whole_notes Note self.now.index.now.places.exprs) k }
    {
        match nth(self.index.places.exprs.as_slice(), k as usize) {
            Some(whole) => Some(&whole.expr.note),
            None => None,
        }
    }
}
