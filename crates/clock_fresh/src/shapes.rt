//! New clock variables, and the most general clocks of types.

ghost use Rattle.std.specs.Prelude.{◌≡◌, suc, IfOk, OnOk};
ghost use Rattle.clock_fresh.specs.Shapes.{shapes_of};
ghost use Rattle.clock_rules.specs.Fresh as spec;
ghost use Rattle.clock_rules.specs.Terms.{var};

use ls_base::{Boxed, List, NoMemory, NoteCopy};
use ls_sig::{Note, TypeNote};
use ls_terms::{ClockTerm, Kind, TypeTerm};
use std::alloc::Global;
use std::marker::Model;
use tree_notes::Renote;

/// A new variable, of the number `next`. It is refused where no further number is left.
fn variable(next: &mut u32) -> Result<ClockTerm, NoMemory>
    ensures made { IfOk result (λ r. r ≡ var next.old) }
    ensures next { OnOk result (next.new ≡ suc next.old) }
{
    let number = *next;
    match number.checked_add(1) {
        Some(after) => {
            *next = after;
            Ok(ClockTerm::Var(number))
        }
        None => Err(NoMemory),
    }
}

/// The most general clock of a type: pointwise for a combinatorial function, an arrow for a
/// sequential one, and a variable for all else.
#[cycle(shape)]
fn shape(alloc: Global, ty: &TypeTerm, next: &mut u32) -> Result<ClockTerm, NoMemory>
    ensures made { IfOk result (λ r. r ≡ (spec.shape ty.now next.old).0) }
    ensures next { OnOk result (next.new ≡ (spec.shape ty.now next.old).1) }
{
    match ty {
        TypeTerm::Arrow(kind, all, _) => match kind {
            Kind::Comb => Ok(ClockTerm::Pointwise),
            Kind::Seq => {
                let all = shapes(alloc, all.as_slice(), next)?;
                let to = variable(next)?;
                Ok(ClockTerm::Arrow(all, Boxed::new(alloc, to)?))
            }
        },
        TypeTerm::Var(_) => variable(next),
        TypeTerm::Int => variable(next),
        TypeTerm::Bool => variable(next),
        TypeTerm::Char => variable(next),
        TypeTerm::Text => variable(next),
        TypeTerm::Unit => variable(next),
        TypeTerm::Enum(_) => variable(next),
        TypeTerm::Tuple(_) => variable(next),
        TypeTerm::Signal(_) => variable(next),
    }
}

#[cycle(shape)]
fn shapes(alloc: Global, all: &[TypeTerm], next: &mut u32) -> Result<List<ClockTerm>, NoMemory>
    ensures made { IfOk result (λ r. r ≡ (shapes_of all.now next.old).0) }
    ensures next { OnOk result (next.new ≡ (shapes_of all.now next.old).1) }
{
    let mut done = List::new(alloc);
    for ty in all {
        let clock = shape(alloc, ty, next)?;
        done.push(clock)?;
    }
    Ok(done)
}

/// As many new variables.
pub fn some_vars(alloc: Global, count: u64, next: &mut u32) -> Result<List<ClockTerm>, NoMemory>
    ensures made { IfOk result (λ r. r ≡ (spec.some_vars count next.old).0) }
    ensures next { OnOk result (next.new ≡ (spec.some_vars count next.old).1) }
{
    let mut done = List::new(alloc);
    for k in 0..count {
        prove!(k < count);
        let clock = variable(next)?;
        done.push(clock)?;
    }
    Ok(done)
}

/// Gives each note the most general clock of its type; seen as the number of the next variable.
#[derive(Drop)]
pub struct Clocking {
    pub next: u32,
}

impl Model for Clocking {
    ghost use Rattle.std.specs.Prelude.{ℕ};

    ghost Value = { ℕ };

    ghost view = { λ v. v.next };
}

impl Renote<TypeNote, Note> for Clocking {
    ghost use Rattle.clock_rules.specs.Fresh as spec;

    ghost step = { spec.step };

    ghost next = { spec.next };

    fn note(&mut self, alloc: Global, old: &TypeNote) -> Result<Note, NoMemory> {
        let ck = shape(alloc, &old.ty, &mut self.next)?;
        Ok(Note {
            bound: old.bound,
            ty: old.ty.copy(alloc)?,
            ck,
            restarts: List::new(alloc),
        })
    }
}
