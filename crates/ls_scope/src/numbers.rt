//! Lists of numbers in which a number is found in the time of one look-up.

ghost use Rattle.std.specs.Prelude.{◌≡◌, ◌≤◌, [], ◌∷◌, ◌++◌, length, is_some, IfOk, OnOk, OnErr};
ghost use Rattle.scope_rules.specs.Faults as spec;

use indexmap::IndexMap;
use ls_base::{List, NoMemory};
use std::alloc::Global;
use std::marker::Model;

/// A list of numbers, with the first place of each in a map. Contracts see the list.
#[derive(Debug, Drop)]
pub struct Numbers {
    list: List<u32>,
    first: IndexMap<u32, u32>,
}

impl Model for Numbers {
    ghost use Rattle.std.specs.Prelude.{◌≡◌, ℕ, List, nat_eq};
    ghost use Rattle.indexmap.specs.IndexMap.{get};
    ghost use Rattle.scope_rules.specs.Faults.{place_of};

    ghost Value = { List ℕ };

    ghost view = { λ n. n.list };

    ghost invariant = { λ n. (x : ℕ) → get nat_eq n.first x ≡ place_of x n.list };
}

impl Numbers {
    pub fn new(alloc: Global) -> Numbers
        ensures { result ≡ [] }
    {
        Numbers {
            list: List::new(alloc),
            first: IndexMap::new(alloc),
        }
    }

    pub fn len(&self) -> usize
        ensures value { result ≡ length self.now }
        ensures few { result ≤ 4294967294 }
    {
        self.list.len()
    }

    /// The first place of a number.
    pub fn place(&self, x: u32) -> Option<u32>
        ensures { result ≡ spec.place_of x self.now }
    {
        match self.first.get(&x) {
            Some(at) => Some(*at),
            None => None,
        }
    }

    /// Whether a number is in the list.
    pub fn contains(&self, x: u32) -> bool
        ensures { result ≡ spec.among self.now x }
    {
        self.place(x).is_some()
    }

    /// Adds a number at the end. After an error the numbers are as before.
    pub fn push(&mut self, x: u32) -> Result<(), NoMemory>
        ensures ok { OnOk result (self.new ≡ self.old ++ x ∷ []) }
        ensures err { OnErr result (self.new ≡ self.old) }
    {
        let at = self.list.len() as u32;
        self.first.reserve(1)?;
        self.list.push(x)?;
        if self.first.contains_key(&x) {
            return Ok(());
        }
        match self.first.insert(x, at) {
            Ok(_) => Ok(()),
            Err(_) => Err(NoMemory),
        }
    }
}
