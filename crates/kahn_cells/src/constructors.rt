//! The constructors of a file.

ghost use Rattle.std.specs.Prelude.{◌≡◌, ◌<◌, ◌^◌, IfOk, OnOk, length};
ghost use Rattle.kahn_cells.specs.Constructors as own;
ghost use Rattle.ls_places.specs.Definitions as spec;

use indexmap::IndexMap;
use ls_ast::DefOf;
use ls_base::{Name, NoMemory};
use ls_places::CasePlaces;
use ls_sig::Note;
use std::alloc::Global;
use std::marker::Model;

/// The definitions of a file, with a map by which the place of a constructor in its enumeration is
/// found in the time that a key takes. Contracts see the definitions.
#[derive(Drop)]
pub struct Constructors<'a> {
    file: &'a [DefOf<Note>],
    places: IndexMap<u32, u32>,
}

impl<'a> Model for Constructors<'a> {
    ghost use Rattle.std.specs.Prelude.{List};
    ghost use Rattle.kahn_cells.specs.Constructors.{ArePlaces};
    ghost use Rattle.std.specs.Coded.{coded_list};
    ghost use Rattle.ls_ast.specs.contracts.tree.DefOf as items;
    ghost use Rattle.ls_ast.specs.declared.tree.DefOf.{DefOf};
    ghost use Rattle.ls_sig.specs.contracts.binder.Note as notes;
    ghost use Rattle.ls_sig.specs.declared.binder.Note.{Note};

    ghost Value = { List (DefOf Note) };

    ghost coded = { coded_list (items.the_row notes.the_row).coded };

    ghost view = { λ c. c.file.now };

    ghost invariant = { λ c. ArePlaces c.places c.file.now };
}

fn add_place(x: u32, k: u32, places: &mut IndexMap<u32, u32>) -> Result<(), NoMemory>
    ensures { OnOk result (own.AddsPlaces places.old (own.place_here x k) places.new) }
{
    if places.get(&x).is_some() {
        return Ok(());
    }
    match places.insert(x, k) {
        Ok(_) => Ok(()),
        Err(_) => Err(NoMemory),
    }
}

/// The constructors of an enumeration, of which a name's first counts.
fn add_cases(all: &[Name], places: &mut IndexMap<u32, u32>) -> Result<(), NoMemory>
    requires { length all.now < 2 ^ 32 }
    ensures { OnOk result (own.AddsPlaces places.old (own.places_in all.now) places.new) }
{
    let mut k = 0;
    for name in all {
        add_place(name.0, k, places)?;
        k += 1;
    }
    Ok(())
}

fn add_definition(item: &DefOf<Note>, places: &mut IndexMap<u32, u32>) -> Result<(), NoMemory>
    ensures { OnOk result (own.AddsPlaces places.old (own.places_of item.now) places.new) }
{
    match item {
        DefOf::Cases { cases, .. } => add_cases(cases.as_slice(), places),
        DefOf::Let { .. } => Ok(()),
    }
}

fn constructor_places(alloc: Global, file: &[DefOf<Note>]) -> Result<IndexMap<u32, u32>, NoMemory>
    ensures { IfOk result (λ r. own.ArePlaces r file.now) }
{
    let mut done = IndexMap::new(alloc);
    for item in file {
        add_definition(item, &mut done)?;
    }
    Ok(done)
}

impl<'a> Constructors<'a> {
    /// The constructors of these definitions. It takes the time of their number.
    pub fn new(alloc: Global, file: &'a [DefOf<Note>]) -> Result<Constructors<'a>, NoMemory>
        ensures { IfOk result (λ r. r ≡ file.now) }
    {
        let places = constructor_places(alloc, file)?;
        Ok(Constructors { file, places })
    }

    /// The place of a case in its enumeration: the names of `false` and `true` are 0 and 1.
    #[tactic(auto, using(crate::proofs::Steps::case_place_other))]
    pub fn case_place(&self, x: u32) -> Option<u32>
        ensures { result ≡ spec.case_place self.now x }
    {
        if x == 0 {
            Some(0)
        } else if x == 1 {
            Some(1)
        } else {
            self.places.get(&x).copied()
        }
    }
}

impl<'a> CasePlaces for Constructors<'a> {
    ghost use Rattle.ls_places.specs.Definitions.{case_place};

    ghost place = { λ it x. case_place it x };

    fn place(&self, name: u32) -> Option<u32> {
        self.case_place(name)
    }
}
