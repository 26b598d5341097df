//! A definition, with what is looked up in it worked out once.

ghost use Rattle.std.specs.Prelude.{◌≡◌, ◌<◌, IfOk, length};
ghost use Rattle.std.specs.Option.{option_copied};
ghost use Rattle.ls_places.specs.Search as spec;
ghost use Rattle.place_tables.specs.Groups as groups;
ghost use Rattle.place_tables.specs.Tables as own;

use crate::groups::{group, grouped};
use crate::lacks::lacks;
use crate::params::param_keys;
use crate::search::{copy_numbers, nth, starts_with};
use indexmap::IndexMap;
use ls_base::{List, NoMemory};
use ls_places::{Definition, Site, Start, Variable};
use std::alloc::Global;
use std::marker::Model;

/// The numbers of what stands in a definition, by names and variables.
#[derive(Drop)]
pub struct NumberTables {
    /// The equations of each variable.
    sites: IndexMap<u32, List<u32>>,
    /// The initial equations of each name.
    starts: IndexMap<u32, List<u32>>,
    /// The parameters of each name.
    params: IndexMap<u32, List<u32>>,
}

/// A definition, with tables by which what stands in it is found in the time that a key takes.
/// Contracts see the definition.
#[derive(Drop)]
pub struct Tables {
    def: Definition,
    numbers: NumberTables,
    /// Whether some arm has no equation, for each variable.
    lacks: List<bool>,
}

impl Model for Tables {
    ghost use Rattle.place_tables.specs.Tables.{AreTables};
    ghost use Rattle.ls_places.specs.contracts.definition.Definition as definitions;
    ghost use Rattle.ls_places.specs.declared.definition.Definition.{Definition};

    ghost Value = { Definition };

    ghost coded = { definitions.the_row.coded };

    ghost view = { λ t. t.def };

    ghost invariant = { λ t. AreTables t.def t.numbers t.lacks };
}

/// The numbers of the variables that each site binds.
fn site_keys(alloc: Global, all: &[Site]) -> Result<List<List<u32>>, NoMemory>
    ensures { IfOk result (λ r. r ≡ own.site_keys all.now) }
{
    let mut done = List::new(alloc);
    for s in all {
        done.push(copy_numbers(alloc, s.vars.as_slice())?)?;
    }
    Ok(done)
}

/// The name of the variable of each initial equation.
fn start_keys(alloc: Global, all: &[Start]) -> Result<List<List<u32>>, NoMemory>
    ensures { IfOk result (λ r. r ≡ own.start_keys all.now) }
{
    let mut done = List::new(alloc);
    for s in all {
        done.push(copy_numbers(alloc, &[s.name])?)?;
    }
    Ok(done)
}

/// Whether some arm has no equation, for each variable.
fn all_lacks(
    alloc: Global,
    d: &Definition,
    sites: &IndexMap<u32, List<u32>>,
) -> Result<List<bool>, NoMemory>
    ensures { IfOk result (λ r. r ≡ own.all_lacks d.now sites.now) }
{
    let mut done = List::new(alloc);
    for x in 0..d.places.vars.len() {
        done.push(lacks(alloc, d, group(sites, x as u32))?)?;
    }
    Ok(done)
}

/// The equations of each variable.
fn sites_by_variable(alloc: Global, d: &Definition) -> Result<IndexMap<u32, List<u32>>, NoMemory>
    ensures { IfOk result (λ r. own.AreSites r d.now) }
{
    let keys = site_keys(alloc, d.places.sites.as_slice())?;
    grouped(alloc, keys.as_slice())
}

/// The initial equations of each name.
fn starts_by_name(alloc: Global, d: &Definition) -> Result<IndexMap<u32, List<u32>>, NoMemory>
    ensures { IfOk result (λ r. own.AreStarts r d.now) }
{
    let keys = start_keys(alloc, d.places.starts.as_slice())?;
    grouped(alloc, keys.as_slice())
}

/// The parameters of each name.
fn params_by_name(alloc: Global, d: &Definition) -> Result<IndexMap<u32, List<u32>>, NoMemory>
    ensures { IfOk result (λ r. own.AreParams r d.now) }
{
    let keys = param_keys(alloc, d.params.as_slice())?;
    grouped(alloc, keys.as_slice())
}

fn number_tables(alloc: Global, d: &Definition) -> Result<NumberTables, NoMemory>
    ensures { IfOk result (λ r. own.AreNumbers r d.now) }
{
    let sites = sites_by_variable(alloc, d)?;
    let starts = starts_by_name(alloc, d)?;
    let params = params_by_name(alloc, d)?;
    Ok(NumberTables {
        sites,
        starts,
        params,
    })
}

impl Tables {
    /// Works out once what is looked up in a definition. It takes the time of its size, times the
    /// depth of its blocks.
    pub fn new(alloc: Global, def: Definition) -> Result<Tables, NoMemory>
        ensures { IfOk result (λ r. r ≡ def) }
    {
        let numbers = number_tables(alloc, &def)?;
        let lacks = all_lacks(alloc, &def, &numbers.sites)?;
        Ok(Tables {
            def,
            numbers,
            lacks,
        })
    }

    /// The definition itself.
    pub fn definition(&self) -> &Definition
        ensures { result.now ≡ self.now }
    {
        &self.def
    }

    /// The numbers of the equations of a variable, in the order of the text.
    pub fn sites_of(&self, x: u32) -> &[u32]
        ensures { groups.picked self.now.places.sites result.now ≡ spec.sites_of x self.now.places.sites }
    {
        group(&self.numbers.sites, x)
    }

    /// The initial equation of a variable.
    pub fn start_of(&self, w: &Variable) -> Option<&Start>
        ensures { option_copied result ≡ spec.start_of w.now self.now.places.starts }
    {
        start_among(
            w,
            self.def.places.starts.as_slice(),
            group(&self.numbers.starts, w.name),
        )
    }

    /// The first parameter that holds a name.
    pub fn param_of(&self, x: u32) -> Option<u32>
        ensures { result ≡ own.param_in x self.now.params 0 }
    {
        nth(group(&self.numbers.params, x), 0).copied()
    }

    /// Whether some arm has no equation for a variable.
    pub fn lacks(&self, x: u32) -> bool
        requires { x < length self.now.places.vars }
        ensures { result ≡ spec.lacks self.now (spec.sites_of x self.now.places.sites) }
    {
        match self.lacks.get(x as usize) {
            Some(lacks) => *lacks,
            None => false,
        }
    }
}

/// The initial equation of a variable, among those of these numbers.
fn start_among<'a>(w: &Variable, all: &'a [Start], numbers: &[u32]) -> Option<&'a Start>
    ensures { option_copied result ≡ spec.start_of w.now (groups.picked all.now numbers.now) }
{
    for k in numbers {
        if let Some(s) = nth(all, *k as usize) {
            let (one, other) = (s.list.as_slice(), w.list.as_slice());
            if s.name == w.name && starts_with(one, other) && starts_with(other, one) {
                return Some(s);
            }
        }
    }
    None
}
