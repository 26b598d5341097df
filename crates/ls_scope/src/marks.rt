//! The marks of parameters.

ghost use Rattle.std.specs.Prelude.{◌≡◌, ℕ, ◌+◌, ◌++◌, nat_eq, Option, length, map, IfOk, OnOk};
ghost use Rattle.scope_rules.specs.Faults as spec;
ghost use Rattle.scope_rules.specs.Places.{names_of};
ghost use Rattle.ls_scope.specs.Marks as giving;

use crate::contents::{add_names, is_name};
use indexmap::IndexMap;
use ls_ast::{Mark, Pat};
use ls_base::{List, NoMemory};
use ls_sig::Binder;
use scope_rules::{Asked, Claim, Stand};
use std::alloc::Global;

/// The mark that a use gives to a parameter.
pub fn mark_of(stand: Stand) -> Option<Mark>
    ensures { result ≡ spec.mark_of stand }
{
    match stand {
        Stand::At(mark) => match mark {
            Mark::Data => None,
            Mark::Unknown => Some(mark),
            Mark::Clock => Some(mark),
            Mark::Signal => Some(mark),
            Mark::Comb => Some(mark),
            Mark::Seq => Some(mark),
        },
        Stand::Asked => Some(Mark::Signal),
        Stand::Applied(mark) => Some(mark),
        Stand::Whole => None,
        Stand::Right => None,
        Stand::Loose => None,
        Stand::Before => None,
    }
}

/// Marks by the numbers of the names in the parameters.
#[derive(Drop)]
pub struct Marks {
    table: IndexMap<u32, Mark>,
}

fn add_mark(k: u32, mark: Mark, marks: &mut Marks) -> Result<(), NoMemory>
    ensures { OnOk result ((i : ℕ) → giving.told marks.new i ≡ spec.or_later (giving.told marks.old i) (giving.mark_for k mark i)) }
{
    if marks.table.contains_key(&k) {
        return Ok(());
    }
    match marks.table.insert(k, mark) {
        Ok(_) => Ok(()),
        Err(_) => Err(NoMemory),
    }
}

fn add_claim(claim: &Claim, marks: &mut Marks) -> Result<(), NoMemory>
    ensures { OnOk result ((i : ℕ) → giving.told marks.new i ≡ spec.or_later (giving.told marks.old i) (spec.mark_in i claim.now)) }
{
    match claim {
        Claim::Named(Binder::Param(k), _, stand) => match mark_of(*stand) {
            Some(mark) => add_mark(*k, mark, marks),
            None => Ok(()),
        },
        _ => Ok(()),
    }
}

fn add_claims(claims: &[Claim], marks: &mut Marks) -> Result<(), NoMemory>
    ensures { OnOk result ((i : ℕ) → giving.told marks.new i ≡ spec.or_later (giving.told marks.old i) (spec.first_in i claims.now)) }
{
    for claim in claims {
        add_claim(claim, marks)?;
    }
    Ok(())
}

/// The first mark that is given to each name of the parameters.
pub fn marks_given(alloc: Global, asks: &[Asked]) -> Result<Marks, NoMemory>
    ensures { IfOk result (λ r. giving.Gives asks.now r) }
{
    let mut marks = Marks {
        table: IndexMap::new(alloc),
    };
    for asked in asks {
        add_claims(asked.claims.as_slice(), &mut marks)?;
    }
    Ok(marks)
}

impl Marks {
    /// The mark of the k-th name in the parameters.
    pub fn mark(&self, k: u32) -> Mark
        ensures { result ≡ spec.mark_or_data (giving.told self.now k) }
    {
        match self.table.get(&k) {
            Some(mark) => *mark,
            None => Mark::Data,
        }
    }
}

/// The mark of each parameter.
pub fn marks_of(alloc: Global, marks: &Marks, params: &[Pat]) -> Result<List<Mark>, NoMemory>
    ensures { IfOk result (λ r. r ≡ giving.marks_from marks.now params.now 0) }
{
    let mut done = List::new(alloc);
    let mut names = List::new(alloc);
    for pat in params {
        let mark = if is_name(pat) {
            marks.mark(names.len() as u32)
        } else {
            Mark::Data
        };
        done.push(mark)?;
        add_names(pat, &mut names)?;
    }
    Ok(done)
}
