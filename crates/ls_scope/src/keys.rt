//! Names with the lists of equations that bind them, found by their keys.

ghost use Rattle.std.specs.Prelude.{◌≡◌, [], ◌∷◌, ◌++◌, nat_eq, IfOk, OnOk, OnErr};
ghost use Rattle.std.specs.Cmp.Lexicographic.{pointwise};
ghost use Rattle.scope_rules.specs.Faults.{place_where};
ghost use Rattle.ls_scope.specs.Keys as spec;

use indexmap::IndexSet;
use ls_base::NoMemory;
use std::alloc::Global;
use std::marker::Model;

/// Keys, each once, in the order in which they came. A key is a name, and the arms around the list
/// of equations that binds it. Contracts see the numbers of each key.
#[derive(Drop)]
pub struct Keys {
    set: IndexSet<Vec<u32>>,
}

impl Model for Keys {
    ghost use Rattle.std.specs.Prelude.{List, ℕ, map};

    ghost Value = { List (List ℕ) };

    ghost view = { λ k. map (λ v. v.items) k.set.keys };
}

// Each arm gives its block's clock name and its own number.
fn add_arm(arm: (u32, u32), key: &mut Vec<u32>) -> Result<(), NoMemory>
    ensures { OnOk result (key.new.items ≡ key.old.items ++ spec.flat (arm ∷ [])) }
{
    if key.push(arm.0).is_err() {
        return Err(NoMemory);
    }
    if key.push(arm.1).is_err() {
        return Err(NoMemory);
    }
    Ok(())
}

fn add_arms(list: &[(u32, u32)], key: &mut Vec<u32>) -> Result<(), NoMemory>
    ensures { OnOk result (key.new.items ≡ key.old.items ++ spec.flat list.now) }
{
    for arm in list {
        add_arm(*arm, key)?;
    }
    Ok(())
}

fn name_key(alloc: Global, x: u32) -> Result<Vec<u32>, NoMemory>
    ensures { IfOk result (λ k. k.items ≡ x ∷ []) }
{
    let mut key = Vec::new(alloc);
    if key.push(x).is_err() {
        return Err(NoMemory);
    }
    Ok(key)
}

/// The key of a name and a list: the name, and then the arms around the list.
pub fn key(alloc: Global, x: u32, list: &[(u32, u32)]) -> Result<Vec<u32>, NoMemory>
    ensures { IfOk result (λ k. k.items ≡ spec.key x list.now) }
{
    let mut key = name_key(alloc, x)?;
    add_arms(list, &mut key)?;
    Ok(key)
}

// The lower of two places.
fn earlier(a: Option<usize>, b: Option<usize>) -> Option<usize>
    ensures { result ≡ spec.earlier a b }
{
    match a {
        None => b,
        Some(i) => match b {
            None => Some(i),
            Some(j) => Some(if i <= j { i } else { j }),
        },
    }
}

impl Keys {
    pub fn new(alloc: Global) -> Keys
        ensures { result ≡ [] }
    {
        Keys {
            set: IndexSet::new(alloc),
        }
    }

    /// The place of a key.
    pub fn place(&self, key: &[u32]) -> Option<usize>
        ensures { result ≡ place_where (pointwise nat_eq key.now) self.now }
    {
        self.set.get_index_of(key)
    }

    /// The first place of a key of this name whose list is one of those around a place.
    pub fn place_seen(
        &self,
        alloc: Global,
        x: u32,
        place: &[(u32, u32)],
    ) -> Result<Option<usize>, NoMemory>
        ensures { IfOk result (λ r. r ≡ spec.first_seen self.now x place.now) }
    {
        let mut key = name_key(alloc, x)?;
        let mut best = self.place(key.as_slice());
        for arm in place {
            add_arm(*arm, &mut key)?;
            best = earlier(best, self.place(key.as_slice()));
        }
        Ok(best)
    }

    /// Adds a key at the end, where it is not there. After an error the keys are as before.
    pub fn add(&mut self, key: Vec<u32>) -> Result<(), NoMemory>
        ensures ok { OnOk result (self.new ≡ spec.with_key self.old key.items) }
        ensures err { OnErr result (self.new ≡ self.old) }
    {
        if self.set.insert(key).is_err() {
            return Err(NoMemory);
        }
        Ok(())
    }
}
