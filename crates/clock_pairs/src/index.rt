//! What is looked up in a definition by number and by name.

ghost use Rattle.std.specs.Prelude.{◌≡◌, ◌+◌, ◌<◌, ◌^◌, ◌++◌, map, length, IfOk, OnOk};
ghost use Rattle.std.specs.Option.{option_copied};
ghost use Rattle.clock_pairs.specs.Entries as spec;
ghost use Rattle.clock_rules.specs.Rules as rules;
ghost use Rattle.ls_places.specs.Patterns.{joined, names_of};
ghost use Rattle.ls_places.specs.Places.{place_of};
ghost use Rattle.ls_places.specs.Search.{nth};

use ls_ast::Pat;
use ls_base::{List, NoMemory};
use ls_places::{Named, Places, Variables};
use ls_sig::Note;
use std::alloc::Global;
use term_unify::Subst;

/// The item of a number.
pub fn nth<T>(all: &[T], k: usize) -> Option<&T>
    ensures { option_copied result ≡ nth all.now k }
{
    all.get(k)
}

/// Adds the names of a pattern, each with the number of the parameter.
#[cycle(add_names)]
fn add_names(pat: &Pat, i: u32, list: &mut Subst<u32>) -> Result<(), NoMemory>
    ensures { OnOk result (list.new.list ≡ list.old.list ++ spec.owned i (names_of pat.now)) }
{
    match pat {
        Pat::Any => Ok(()),
        Pat::Unit => Ok(()),
        Pat::Var(name) => list.push(name.0, i),
        Pat::Tuple(parts) => add_all_names(parts.as_slice(), i, list),
    }
}

#[cycle(add_names)]
fn add_all_names(all: &[Pat], i: u32, list: &mut Subst<u32>) -> Result<(), NoMemory>
    ensures { OnOk result (list.new.list ≡ list.old.list ++ spec.owned i (joined (map names_of all.now))) }
{
    for pat in all {
        add_names(pat, i, list)?;
    }
    Ok(())
}

/// The names of parameters, each with the number of its parameter.
fn owners(alloc: Global, params: &List<Pat>) -> Result<Subst<u32>, NoMemory>
    ensures { IfOk result (λ r. r.list ≡ spec.owners params.now 0) }
{
    let mut list = Subst::new(alloc);
    let all = params.as_slice();
    for (i, pat) in all.iter().enumerate() {
        add_names(pat, i as u32, &mut list)?;
    }
    Ok(list)
}

/// Adds a variable with the number of the clock name that it brings, if the name is one.
fn add_brought(m: u32, named: &Named, list: &mut Subst<u32>) -> Result<(), NoMemory>
    ensures { OnOk result (list.new.list ≡ list.old.list ++ spec.brought_by named.now m) }
{
    match named {
        Named::Clock(x) => list.push(*x, m),
        Named::Match(_, _, _) => Ok(()),
        Named::Present(_, _) => Ok(()),
        Named::Active(_, _) => Ok(()),
        Named::Tested(_, _) => Ok(()),
    }
}

/// The variables that bring clock names, each with the number of the name.
fn brought(alloc: Global, first: u32, names: &List<Named>) -> Result<Subst<u32>, NoMemory>
    requires { first + length names.now < 2 ^ 32 }
    ensures { IfOk result (λ r. r.list ≡ spec.brought names.now first) }
{
    let mut list = Subst::new(alloc);
    let all = names.as_slice();
    for (j, named) in all.iter().enumerate() {
        add_brought((first as usize + j) as u32, named, &mut list)?;
    }
    Ok(list)
}

/// A definition's parameters, and what stands where in its body, with maps for what is looked up
/// there.
#[derive(Drop)]
pub struct Index {
    pub params: List<Pat>,
    pub places: Places<Note>,
    variables: Variables,
    owners: Subst<u32>,
    brought: Subst<u32>,
    ghost numbered: { length params + length places.names < 2 ^ 32 },
    ghost mapped: { variables ≡ places.vars },
    ghost named: { owners.list ≡ spec.owners params 0 },
    ghost clocked: { brought.list ≡ spec.brought places.names (length params) },
}

impl Index {
    /// The maps of a definition. `variables` has those of `places`.
    pub fn new(
        alloc: Global,
        params: List<Pat>,
        places: Places<Note>,
        variables: Variables,
    ) -> Result<Index, NoMemory>
        requires numbered { length params + length places.names < 2 ^ 32 }
        requires mapped { variables ≡ places.vars }
        ensures params { IfOk result (λ r. r.params ≡ params) }
        ensures places { IfOk result (λ r. r.places ≡ places) }
    {
        let owners = owners(alloc, &params)?;
        let brought = brought(alloc, params.len() as u32, &places.names)?;
        Ok(Index {
            params,
            places,
            variables,
            owners,
            brought,
        })
    }

    /// The number of parameters.
    pub fn first(&self) -> u32
        ensures value { result ≡ length self.now.params }
        ensures room { result + length self.now.places.names < 2 ^ 32 }
    {
        self.params.len() as u32
    }

    /// The parameter that binds the name of this number among those of the parameters.
    pub fn param_at(&self, k: u32) -> Option<u32>
        ensures { result ≡ rules.param_at k self.now.params 0 }
    {
        match nth(self.owners.list.as_slice(), k as usize) {
            Some(entry) => Some(entry.1),
            None => None,
        }
    }

    /// The parameter that binds this name.
    pub fn param_named(&self, x: u32) -> Option<u32>
        ensures { result ≡ rules.param_named x self.now.params 0 }
    {
        match self.owners.get(x) {
            Some(i) => Some(*i),
            None => None,
        }
    }

    /// The number of the clock name that a variable brings.
    pub fn clock_name(&self, x: u32) -> Option<u32>
        ensures { result ≡ rules.clock_name x self.now.places.names (length self.now.params) }
    {
        match self.brought.get(x) {
            Some(m) => Some(*m),
            None => None,
        }
    }

    /// The number of the variable of this name whose list has these arms around it.
    pub fn place_of(
        &self,
        alloc: Global,
        x: u32,
        list: &[(u32, u32)],
    ) -> Result<Option<u32>, NoMemory>
        ensures { IfOk result (λ r. r ≡ place_of x list.now self.now.places.vars 0) }
    {
        self.variables.place_of(alloc, x, list)
    }
}
