//! The variables of a body, which are found by their names and lists.

ghost use Rattle.std.specs.Prelude.{◌≡◌, ◌<◌, map, IfOk, OnOk};
ghost use Rattle.ls_scope.specs.Keys.{key_of};
ghost use Rattle.scope_rules.specs.Faults as spec;

use crate::keys::{Keys, key};
use ls_base::{List, NoMemory, NoteCopy};
use scope_rules::Site;
use std::alloc::Global;
use std::marker::Model;

/// Variables in order, each by its first binding, with their keys in a set, so that one is found
/// in the time that its key takes. Contracts see the list.
#[derive(Drop)]
pub struct Variables {
    list: List<Site>,
    keys: Keys,
}

impl Model for Variables {
    ghost use Rattle.std.specs.Prelude.{◌≡◌, List, map};
    ghost use Rattle.scope_rules.specs.declared.places.Site.{Site};
    ghost use Rattle.ls_scope.specs.Keys.{key_of};

    ghost Value = { List Site };

    ghost view = { λ v. v.list };

    ghost invariant = { λ v. v.keys ≡ map key_of v.list };
}

impl Variables {
    pub fn as_slice(&self) -> &[Site]
        ensures { result.now ≡ self.now }
    {
        self.list.as_slice()
    }

    /// The number of the variable of this name and list.
    pub fn place(&self, alloc: Global, x: u32, list: &[(u32, u32)]) -> Result<Option<u32>, NoMemory>
        ensures { IfOk result (λ r. r ≡ spec.place_where (spec.of_list x list.now) self.now) }
    {
        let key = key(alloc, x, list)?;
        let count = self.list.len();
        match self.keys.place(key.as_slice()) {
            Some(at) => {
                prove!(at < count);
                Ok(Some(at as u32))
            }
            None => Ok(None),
        }
    }

    /// The number of the variable of this name whose list holds a place.
    pub fn place_seen(
        &self,
        alloc: Global,
        x: u32,
        place: &[(u32, u32)],
    ) -> Result<Option<u32>, NoMemory>
        ensures { IfOk result (λ r. r ≡ spec.place_where (spec.seen_at x place.now) self.now) }
    {
        let count = self.list.len();
        match self.keys.place_seen(alloc, x, place)? {
            Some(at) => {
                prove!(at < count);
                Ok(Some(at as u32))
            }
            None => Ok(None),
        }
    }
}

fn site_copy(alloc: Global, s: &Site) -> Result<Site, NoMemory>
    ensures { IfOk result (λ r. r ≡ s.now) }
{
    Ok(Site {
        var: s.var,
        list: s.list.copy(alloc)?,
        inner: s.inner.copy(alloc)?,
        way: s.way,
    })
}

// One more binding, which is a new variable where its list has not bound the name before.
fn add_site(alloc: Global, s: &Site, list: &mut List<Site>, keys: &mut Keys) -> Result<(), NoMemory>
    requires { keys.old ≡ map key_of list.old }
    ensures list { OnOk result (list.new ≡ spec.with_site list.old s.now) }
    ensures keys { OnOk result (keys.new ≡ map key_of list.new) }
{
    let key = key(alloc, s.var, s.list.as_slice())?;
    if keys.place(key.as_slice()).is_some() {
        return Ok(());
    }
    let site = site_copy(alloc, s)?;
    list.push(site)?;
    keys.add(key)?;
    Ok(())
}

/// The variables that bindings give.
pub fn variables_of(alloc: Global, sites: &[Site]) -> Result<Variables, NoMemory>
    ensures { IfOk result (λ r. r ≡ spec.variables sites.now) }
{
    let mut list = List::new(alloc);
    let mut keys = Keys::new(alloc);
    for s in sites {
        add_site(alloc, s, &mut list, &mut keys)?;
    }
    Ok(Variables { list, keys })
}
