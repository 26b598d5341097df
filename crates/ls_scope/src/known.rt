//! What stands before a definition, with its tables.

ghost use Rattle.std.specs.Prelude.{◌≡◌, ◌<◌, ◌^◌, ◌∷◌, [], ◌++◌, length, slice_get, option_copied, IfOk, OnOk};
ghost use Rattle.scope_rules.specs.Faults as spec;
ghost use Rattle.scope_rules.specs.File.{nothing_known, type_names};
ghost use Rattle.ls_scope.specs.Cases.{CasesMore, CaseMore};

use crate::numbers::Numbers;
use indexmap::IndexMap;
use ls_base::{List, NoMemory};
use scope_rules::Earlier;
use std::alloc::Global;
use std::marker::Model;

/// The enumerations, each with its name and constructors, and the definitions. Tables find a
/// definition, a type and a constructor by the number of its name. Contracts see the two lists.
#[derive(Drop)]
pub struct Known {
    enums: List<(u32, List<u32>)>,
    defs: List<Earlier>,
    def_names: Numbers,
    types: Numbers,
    cases: IndexMap<u32, (u32, u32)>,
}

impl Model for Known {
    ghost use Rattle.std.specs.Prelude.{◌≡◌, ℕ, nat_eq};
    ghost use Rattle.indexmap.specs.IndexMap.{get};
    ghost use Rattle.scope_rules.specs.Claims.{Known};
    ghost use Rattle.scope_rules.specs.Faults.{titles, case_place};
    ghost use Rattle.scope_rules.specs.File.{type_names};

    ghost Value = { Known };

    ghost view = { λ k. record { enums = k.enums; defs = k.defs } };

    ghost invariant = { λ k. (k.def_names ≡ titles k.defs) × (k.types ≡ type_names k.enums) × ((c : ℕ) → get nat_eq k.cases c ≡ case_place 0 k.enums c) };
}

// The constructors of one more enumeration, of number t.
fn add_cases(t: u32, names: &[u32], cases: &mut IndexMap<u32, (u32, u32)>) -> Result<(), NoMemory>
    requires { length names.now < 2 ^ 32 }
    ensures { OnOk result (CasesMore t names.now cases.old cases.new) }
{
    for (at, name) in names.iter().enumerate() {
        add_case(t, at as u32, *name, cases)?;
    }
    Ok(())
}

fn add_case(
    t: u32,
    at: u32,
    name: u32,
    cases: &mut IndexMap<u32, (u32, u32)>,
) -> Result<(), NoMemory>
    ensures { OnOk result (CaseMore t at name cases.old cases.new) }
{
    if cases.contains_key(&name) {
        return Ok(());
    }
    match cases.insert(name, (t, at)) {
        Ok(_) => Ok(()),
        Err(_) => Err(NoMemory),
    }
}

impl Known {
    pub fn new(alloc: Global) -> Known
        ensures { result ≡ nothing_known }
    {
        Known {
            enums: List::new(alloc),
            defs: List::new(alloc),
            def_names: Numbers::new(alloc),
            types: Numbers::new(alloc),
            cases: IndexMap::new(alloc),
        }
    }

    /// The number of the definition of a name.
    pub fn def_place(&self, x: u32) -> Option<u32>
        ensures { result ≡ spec.place_of x (spec.titles self.now.defs) }
    {
        self.def_names.place(x)
    }

    /// The definition of a number.
    pub fn def(&self, k: u32) -> Option<&Earlier>
        ensures { option_copied result ≡ slice_get self.now.defs k }
    {
        self.defs.get(k as usize)
    }

    /// Whether a type has this name.
    pub fn has_type(&self, x: u32) -> bool
        ensures { result ≡ spec.among (type_names self.now.enums) x }
    {
        self.types.contains(x)
    }

    /// The number of the enumeration of a constructor, and its place in it.
    pub fn case_place(&self, c: u32) -> Option<(u32, u32)>
        ensures { result ≡ spec.case_place 0 self.now.enums c }
    {
        match self.cases.get(&c) {
            Some(place) => Some(*place),
            None => None,
        }
    }

    /// The enumeration of a number: its name and its constructors.
    pub fn enumeration(&self, t: u32) -> Option<&(u32, List<u32>)>
        ensures { option_copied result ≡ slice_get self.now.enums t }
    {
        self.enums.get(t as usize)
    }

    /// With one more definition.
    pub fn with_def(self, def: Earlier) -> Result<Known, NoMemory>
        ensures { IfOk result (λ r. r ≡ record { enums = self.enums; defs = self.defs ++ def ∷ [] }) }
    {
        let Known {
            enums,
            mut defs,
            mut def_names,
            types,
            cases,
        } = self;
        def_names.push(def.title)?;
        defs.push(def)?;
        Ok(Known {
            enums,
            defs,
            def_names,
            types,
            cases,
        })
    }

    /// With one more enumeration.
    pub fn with_enum(self, name: u32, names: List<u32>) -> Result<Known, NoMemory>
        ensures { IfOk result (λ r. r ≡ record { enums = self.enums ++ (name, names) ∷ []; defs = self.defs }) }
    {
        let Known {
            mut enums,
            defs,
            def_names,
            mut types,
            mut cases,
        } = self;
        let t = enums.len() as u32;
        add_cases(t, names.as_slice(), &mut cases)?;
        types.push(name)?;
        enums.push((name, names))?;
        Ok(Known {
            enums,
            defs,
            def_names,
            types,
            cases,
        })
    }
}
