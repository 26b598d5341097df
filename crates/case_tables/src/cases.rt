//! The constructors of a file.

ghost use Rattle.std.specs.Prelude.{◌≡◌, ◌++◌, IfOk, OnOk};
ghost use Rattle.case_tables.specs.Cases as spec;
ghost use Rattle.ls_places.specs.Definitions.{case_place};

use ls_ast::DefOf;
use ls_base::{List, Name, NoMemory};
use ls_places::CasePlaces;
use std::alloc::Global;
use term_unify::Subst;

/// Where each constructor stands in its enumeration, by the number of its name. Of a name that
/// stands twice the first counts.
#[derive(Drop)]
pub struct Cases {
    places: Subst<u32>,
}

fn add_cases(cases: &List<Name>, list: &mut Subst<u32>) -> Result<(), NoMemory>
    ensures { OnOk result (list.new.list ≡ list.old.list ++ spec.places_from cases.now 0) }
{
    let all = cases.as_slice();
    for (k, name) in all.iter().enumerate() {
        list.push(name.0, k as u32)?;
    }
    Ok(())
}

fn add_definition<N>(def: &DefOf<N>, list: &mut Subst<u32>) -> Result<(), NoMemory>
    ensures { OnOk result (list.new.list ≡ list.old.list ++ spec.places_of def.now) }
{
    match def {
        DefOf::Cases { cases, .. } => add_cases(cases, list),
        DefOf::Let { .. } => Ok(()),
    }
}

impl Cases {
    /// The constructors of these definitions. It takes the time of their number, and a logarithm.
    pub fn new<N>(alloc: Global, defs: &[DefOf<N>]) -> Result<Cases, NoMemory>
        ensures { IfOk result (λ r. spec.place r ≡ case_place defs.now) }
    {
        let mut places = Subst::new(alloc);
        for def in defs {
            add_definition(def, &mut places)?;
        }
        Ok(Cases { places })
    }
}

impl CasePlaces for Cases {
    ghost use Rattle.case_tables.specs.Cases as spec;

    ghost place = { λ it x. spec.place it x };

    fn place(&self, name: u32) -> Option<u32> {
        match name {
            0 => Some(0),
            1 => Some(1),
            _ => self.places.get(name).copied(),
        }
    }
}
