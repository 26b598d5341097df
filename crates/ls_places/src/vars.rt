//! The variables of a body, which are found by their names and lists.

ghost use Rattle.std.specs.Prelude.{◌≡◌, ◌≤◌, [], ◌∷◌, ◌++◌, None, length, slice_get, IfOk, OnOk, OnErr};
ghost use Rattle.std.specs.Option.{option_copied};
ghost use Rattle.ls_places.specs.Keys as keys;
ghost use Rattle.ls_places.specs.Places as spec;

use crate::places::Variable;
use indexmap::IndexSet;
use ls_base::{List, NoMemory};
use std::alloc::Global;
use std::marker::Model;

/// Variables in order, with their keys in a set, so that one is found in the time that its key
/// takes. Contracts see the list.
#[derive(Drop)]
pub struct Variables {
    list: List<Variable>,
    keys: IndexSet<Vec<u32>>,
}

impl Model for Variables {
    ghost use Rattle.std.specs.Prelude.{◌≡◌, List, map};
    ghost use Rattle.ls_places.specs.declared.places.Variable.{Variable};
    ghost use Rattle.ls_places.specs.Keys.{key_of};

    ghost Value = { List Variable };

    ghost view = { λ v. v.list };

    ghost invariant = { λ v. map (λ k. k.items) v.keys.keys ≡ map key_of v.list };
}

// The name, and then the clock name and the number of each arm around the list.
fn key(alloc: Global, x: u32, list: &[(u32, u32)]) -> Result<Vec<u32>, NoMemory>
    ensures { IfOk result (λ k. k.items ≡ keys.key x list.now) }
{
    let mut key = Vec::new(alloc);
    if key.push(x).is_err() {
        return Err(NoMemory);
    }
    for arm in list {
        if key.push(arm.0).is_err() || key.push(arm.1).is_err() {
            return Err(NoMemory);
        }
    }
    Ok(key)
}

impl Variables {
    /// No variables.
    pub fn new(alloc: Global) -> Variables
        ensures { result ≡ [] }
    {
        Variables {
            list: List::new(alloc),
            keys: IndexSet::new(alloc),
        }
    }

    /// The number of variables.
    pub fn len(&self) -> usize
        ensures value { result ≡ length self.now }
        ensures few { result ≤ 4294967294 }
    {
        self.list.len()
    }

    /// The variable of this number.
    pub fn get(&self, k: usize) -> Option<&Variable>
        ensures { option_copied result ≡ slice_get self.now k }
    {
        self.list.get(k)
    }

    /// The number of the variable of this name whose list has these arms around it.
    pub fn place_of(
        &self,
        alloc: Global,
        x: u32,
        list: &[(u32, u32)],
    ) -> Result<Option<u32>, NoMemory>
        ensures { IfOk result (λ r. r ≡ spec.place_of x list.now self.now 0) }
    {
        let key = key(alloc, x, list)?;
        let count = self.list.len();
        match self.keys.get_index_of(key.as_slice()) {
            Some(at) => {
                prove!(at < count);
                Ok(Some(at as u32))
            }
            None => Ok(None),
        }
    }

    /// Adds a variable at the end. After an error the variables are as before.
    pub fn add(&mut self, alloc: Global, variable: Variable) -> Result<(), NoMemory>
        requires { spec.place_of variable.name variable.list self.old 0 ≡ None }
        ensures ok { OnOk result (self.new ≡ self.old ++ variable ∷ []) }
        ensures err { OnErr result (self.new ≡ self.old) }
    {
        let key = key(alloc, variable.name, variable.list.as_slice())?;
        self.keys.reserve(1)?;
        self.list.push(variable)?;
        match self.keys.insert(key) {
            Ok(_) => Ok(()),
            Err(_) => Err(NoMemory),
        }
    }

    /// The variables in order.
    pub fn into_list(self) -> List<Variable>
        ensures { result ≡ self }
    {
        let Variables { list, keys: _ } = self;
        list
    }
}
