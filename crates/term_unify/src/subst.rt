//! Substitutions.

ghost use Rattle.std.specs.Prelude.{◌≡◌, ℕ, List, [], ◌∷◌, ◌++◌, Option, OnOk, OnErr};
ghost use Rattle.std.specs.Option.{option_copied};
ghost use Rattle.std.specs.Ordering.{nat_cmp};
ghost use Rattle.std.specs.BTreeMap.{get};
ghost use Rattle.term_unify.specs.Terms.{first, place};

use ls_base::{List, NoMemory};
use std::alloc::Global;
use std::collections::BTreeMap;

/// Terms to stand for variables. The first entry of a variable counts.
#[derive(Drop)]
pub struct Subst<T> {
    pub list: List<(u32, T)>,
    places: BTreeMap<u32, usize>,
    ghost indexed: { (x : ℕ) → get nat_cmp places x ≡ place list x },
}

impl<T> Subst<T> {
    /// The substitution that replaces no variable.
    pub fn new(alloc: Global) -> Subst<T>
        ensures { result.list ≡ [] }
    {
        Subst {
            list: List::new(alloc),
            places: BTreeMap::new(alloc),
        }
    }

    /// What stands for a variable.
    pub fn get(&self, variable: u32) -> Option<&T>
        ensures { option_copied result ≡ first self.now.list variable }
    {
        match self.places.get(&variable) {
            Some(place) => match self.list.get(*place) {
                Some(entry) => Some(&entry.1),
                None => None,
            },
            None => None,
        }
    }
}

impl<T: Drop> Subst<T> {
    /// Adds an entry at the end.
    pub fn push(&mut self, variable: u32, value: T) -> Result<(), NoMemory>
        ensures ok { OnOk result (self.new.list ≡ self.old.list ++ (variable, value) ∷ []) }
        ensures err { OnErr result (self.new.list ≡ self.old.list) }
    {
        let place = self.list.len();
        if self.places.contains_key(&variable) {
            return self.list.push((variable, value));
        }
        if self.places.insert(variable, place).is_err() {
            return Err(NoMemory);
        }
        match self.list.push((variable, value)) {
            Ok(()) => Ok(()),
            Err(fault) => {
                self.places.remove(&variable);
                Err(fault)
            }
        }
    }
}
