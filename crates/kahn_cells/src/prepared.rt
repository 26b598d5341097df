//! A definition, with what is looked up in it worked out once.

ghost use Rattle.std.specs.Prelude.{◌≡◌, ◌+◌, ◌<◌, ◌^◌, IfOk, length, map};
ghost use Rattle.std.specs.Option.{option_copied};
ghost use Rattle.kahn_cells.specs.Groups as groups;
ghost use Rattle.kahn_cells.specs.Homes as clocks;
ghost use Rattle.kahn_cells.specs.Prepared as own;
ghost use Rattle.ls_places.specs.Search as spec;

use crate::clocks::{add_all_variables, add_variables};
use crate::groups::{group, grouped};
use crate::homes::{block_clocks, homes};
use crate::paths::lacks;
use crate::search::{copy_numbers, nth, starts_with};
use crate::signals::{signal_among, tested_outside};
use indexmap::{IndexMap, IndexSet};
use ls_base::{List, NoMemory};
use ls_places::{Definition, Site, Start, Variable};
use ls_terms::ClockTerm;
use std::alloc::Global;
use std::marker::Model;

/// What the clocks tell that are noted in a definition.
#[derive(Drop)]
pub struct ClockTables {
    /// The clock variables of the signature.
    signature: IndexSet<u32>,
    /// The smallest arm around all occurrences of each clock variable.
    homes: IndexMap<u32, List<(u32, u32)>>,
    /// The clock of each block that a clock is sampled on.
    blocks: IndexMap<u32, ClockTerm>,
}

/// The numbers of what stands in a definition, by names and variables.
#[derive(Drop)]
pub struct NumberTables {
    /// The equations of each variable.
    sites: IndexMap<u32, List<u32>>,
    /// The variables of each name.
    vars: IndexMap<u32, List<u32>>,
    /// The initial equations of each name.
    starts: IndexMap<u32, List<u32>>,
}

/// A definition, with tables by which what stands in it is found in the time that a key takes.
/// Contracts see the definition.
#[derive(Drop)]
pub struct Prepared {
    def: Definition,
    clocks: ClockTables,
    numbers: NumberTables,
    /// The first signal from outside that is tested in each automaton.
    tested: IndexMap<u32, u32>,
    /// Whether some arm has no equation, for each variable.
    lacks: List<bool>,
}

impl Model for Prepared {
    ghost use Rattle.kahn_cells.specs.Prepared.{IsPrepared};
    ghost use Rattle.ls_places.specs.contracts.definition.Definition as definitions;
    ghost use Rattle.ls_places.specs.declared.definition.Definition.{Definition};

    ghost Value = { Definition };

    ghost coded = { definitions.the_row.coded };

    ghost view = { λ p. p.def };

    ghost invariant = { λ p. IsPrepared p.def p.clocks p.numbers p.tested p.lacks };
}

/// The clock variables of a signature.
fn signature_variables(alloc: Global, d: &Definition) -> Result<IndexSet<u32>, NoMemory>
    ensures { IfOk result (λ r. own.IsSignature r d.now) }
{
    let mut done = IndexSet::new(alloc);
    add_variables(&d.result.note.ck, &mut done)?;
    add_all_variables(d.clocks.as_slice(), &mut done)?;
    Ok(done)
}

/// The numbers of the variables that each site binds.
fn site_keys(alloc: Global, all: &[Site]) -> Result<List<List<u32>>, NoMemory>
    ensures { IfOk result (λ r. r ≡ own.site_keys all.now) }
{
    let mut done = List::new(alloc);
    for s in all {
        done.push(copy_numbers(alloc, s.vars.as_slice())?)?;
    }
    Ok(done)
}

/// The name of each variable.
fn variable_keys(alloc: Global, all: &[Variable]) -> Result<List<List<u32>>, NoMemory>
    ensures { IfOk result (λ r. r ≡ own.variable_keys all.now) }
{
    let mut done = List::new(alloc);
    for w in all {
        done.push(copy_numbers(alloc, &[w.name])?)?;
    }
    Ok(done)
}

/// The name of the variable of each initial equation.
fn start_keys(alloc: Global, all: &[Start]) -> Result<List<List<u32>>, NoMemory>
    ensures { IfOk result (λ r. r ≡ own.start_keys all.now) }
{
    let mut done = List::new(alloc);
    for s in all {
        done.push(copy_numbers(alloc, &[s.name])?)?;
    }
    Ok(done)
}

/// Whether some arm has no equation, for each variable.
fn all_lacks(
    alloc: Global,
    d: &Definition,
    sites: &IndexMap<u32, List<u32>>,
) -> Result<List<bool>, NoMemory>
    ensures { IfOk result (λ r. r ≡ own.all_lacks d.now sites.now) }
{
    let mut done = List::new(alloc);
    for x in 0..d.places.vars.len() {
        done.push(lacks(alloc, d, group(sites, x as u32))?)?;
    }
    Ok(done)
}

fn clock_tables(alloc: Global, d: &Definition) -> Result<ClockTables, NoMemory>
    ensures { IfOk result (λ r. own.AreClocks r d.now) }
{
    let signature = signature_variables(alloc, d)?;
    let homes = homes(alloc, d.places.exprs.as_slice())?;
    let blocks = block_clocks(alloc, d.places.exprs.as_slice())?;
    Ok(ClockTables {
        signature,
        homes,
        blocks,
    })
}

/// The equations of each variable.
fn sites_by_variable(alloc: Global, d: &Definition) -> Result<IndexMap<u32, List<u32>>, NoMemory>
    ensures { IfOk result (λ r. own.AreSites r d.now) }
{
    let keys = site_keys(alloc, d.places.sites.as_slice())?;
    grouped(alloc, keys.as_slice())
}

/// The variables of each name.
fn variables_by_name(alloc: Global, d: &Definition) -> Result<IndexMap<u32, List<u32>>, NoMemory>
    ensures { IfOk result (λ r. own.AreVariables r d.now) }
{
    let keys = variable_keys(alloc, d.places.vars.as_slice())?;
    grouped(alloc, keys.as_slice())
}

/// The initial equations of each name.
fn starts_by_name(alloc: Global, d: &Definition) -> Result<IndexMap<u32, List<u32>>, NoMemory>
    ensures { IfOk result (λ r. own.AreStarts r d.now) }
{
    let keys = start_keys(alloc, d.places.starts.as_slice())?;
    grouped(alloc, keys.as_slice())
}

fn number_tables(alloc: Global, d: &Definition) -> Result<NumberTables, NoMemory>
    ensures { IfOk result (λ r. own.AreNumbers r d.now) }
{
    let sites = sites_by_variable(alloc, d)?;
    let vars = variables_by_name(alloc, d)?;
    let starts = starts_by_name(alloc, d)?;
    Ok(NumberTables {
        sites,
        vars,
        starts,
    })
}

impl Prepared {
    /// Works out once what is looked up in a definition. It takes the time of its size, times the
    /// depth of its blocks.
    pub fn new(alloc: Global, def: Definition) -> Result<Prepared, NoMemory>
        ensures { IfOk result (λ r. r ≡ def) }
    {
        let clocks = clock_tables(alloc, &def)?;
        let numbers = number_tables(alloc, &def)?;
        let tested = tested_outside(alloc, &def, &numbers.vars)?;
        let lacks = all_lacks(alloc, &def, &numbers.sites)?;
        Ok(Prepared {
            def,
            clocks,
            numbers,
            tested,
            lacks,
        })
    }

    /// The definition itself.
    pub fn definition(&self) -> &Definition
        ensures { result.now ≡ self.now }
    {
        &self.def
    }

    /// Whether a clock variable stands in the signature.
    pub fn in_signature(&self, w: u32) -> bool
        ensures { result ≡ spec.in_signature self.now w }
    {
        self.clocks.signature.contains(&w)
    }

    /// The smallest arm around all occurrences of a clock variable.
    pub fn home(&self, w: u32) -> &[(u32, u32)]
        ensures { result.now ≡ spec.home_of w self.now.places.exprs }
    {
        match self.clocks.homes.get(&w) {
            None => &[],
            Some(home) => home.as_slice(),
        }
    }

    /// The clock of the automaton with the clock names `m` and `m + 1`, where a clock is sampled
    /// on one of them.
    pub fn mode_clock(&self, m: u32) -> Option<&ClockTerm>
        requires { m + 1 < 2 ^ 32 }
        ensures { option_copied result ≡ spec.mode_clock m self.now.places.exprs }
    {
        match self.clocks.blocks.get(&m) {
            Some(ck) => Some(ck),
            None => self.clocks.blocks.get(&(m + 1)),
        }
    }

    /// The name of the first signal from outside that a `present` in an arm of the automaton with
    /// the clock names `m` and `m + 1` tests.
    pub fn tested_outside(&self, m: u32) -> Option<u32>
        ensures { result ≡ spec.tested_outside self.now m }
    {
        self.tested.get(&m).copied()
    }

    /// The numbers of the equations of a variable, in the order of the text.
    pub fn sites_of(&self, x: u32) -> &[u32]
        ensures { groups.picked self.now.places.sites result.now ≡ spec.sites_of x self.now.places.sites }
    {
        group(&self.numbers.sites, x)
    }

    /// The first equation of a variable.
    pub fn first_site(&self, x: u32) -> Option<&Site>
        ensures { option_copied result ≡ spec.nth (spec.sites_of x self.now.places.sites) 0 }
    {
        first_picked(
            self.def.places.sites.as_slice(),
            group(&self.numbers.sites, x),
        )
    }

    /// The initial equation of a variable.
    pub fn start_of(&self, w: &Variable) -> Option<&Start>
        ensures { option_copied result ≡ spec.start_of w.now self.now.places.starts }
    {
        start_among(
            w,
            self.def.places.starts.as_slice(),
            group(&self.numbers.starts, w.name),
        )
    }

    /// The signal of this name that is seen in these arms; None where it is a parameter.
    pub fn signal_at(&self, x: u32, p: &[(u32, u32)]) -> Option<u32>
        ensures { result ≡ spec.signal_at self.now x p.now }
    {
        signal_among(
            p,
            self.def.places.vars.as_slice(),
            group(&self.numbers.vars, x),
        )
    }

    /// Whether some arm has no equation for a variable.
    pub fn lacks(&self, x: u32) -> bool
        requires { x < length self.now.places.vars }
        ensures { result ≡ spec.lacks self.now (spec.sites_of x self.now.places.sites) }
    {
        match self.lacks.get(x as usize) {
            Some(lacks) => *lacks,
            None => false,
        }
    }
}

/// The first of the sites of these numbers.
fn first_picked<'a>(all: &'a [Site], numbers: &[u32]) -> Option<&'a Site>
    ensures { option_copied result ≡ spec.nth (groups.picked all.now numbers.now) 0 }
{
    for k in numbers {
        if let Some(s) = nth(all, *k as usize) {
            return Some(s);
        }
    }
    None
}

/// The initial equation of a variable, among those of these numbers.
fn start_among<'a>(w: &Variable, all: &'a [Start], numbers: &[u32]) -> Option<&'a Start>
    ensures { option_copied result ≡ spec.start_of w.now (groups.picked all.now numbers.now) }
{
    for k in numbers {
        if let Some(s) = nth(all, *k as usize) {
            let (one, other) = (s.list.as_slice(), w.list.as_slice());
            if s.name == w.name && starts_with(one, other) && starts_with(other, one) {
                return Some(s);
            }
        }
    }
    None
}
