//! A definition, with the tables of its blocks.

ghost use Rattle.std.specs.Prelude.{◌≡◌, IfOk, map};
ghost use Rattle.std.specs.Option.{option_copied};
ghost use Rattle.block_tables.specs.Signals as signals;
ghost use Rattle.block_tables.specs.Tables as own;
ghost use Rattle.ls_places.specs.Clocks as clocks;
ghost use Rattle.ls_places.specs.Search as spec;

use crate::blocks::block_clocks;
use crate::signals::{signal_among, tested_outside};
use indexmap::IndexMap;
use ls_base::{List, NoMemory};
use ls_places::{Definition, Variable};
use ls_terms::ClockTerm;
use place_tables::{Tables, copy_numbers, group, grouped};
use std::alloc::Global;
use std::marker::Model;

/// A definition with its tables, and those of its blocks. Contracts see the definition.
#[derive(Drop)]
pub struct BlockTables {
    tables: Tables,
    /// The variables of each name.
    vars: IndexMap<u32, List<u32>>,
    /// The first signal from outside that is tested in each automaton.
    tested: IndexMap<u32, u32>,
    /// The clock of each block that a clock is sampled on.
    clocks: IndexMap<u32, ClockTerm>,
}

impl Model for BlockTables {
    ghost use Rattle.block_tables.specs.Tables.{AreBlockTables};
    ghost use Rattle.ls_places.specs.contracts.definition.Definition as definitions;
    ghost use Rattle.ls_places.specs.declared.definition.Definition.{Definition};

    ghost Value = { Definition };

    ghost coded = { definitions.the_row.coded };

    ghost view = { λ t. t.tables };

    ghost invariant = { λ t. AreBlockTables t.tables t.vars t.tested t.clocks };
}

/// The name of each variable.
fn variable_keys(alloc: Global, all: &[Variable]) -> Result<List<List<u32>>, NoMemory>
    ensures { IfOk result (λ r. r ≡ signals.variable_keys all.now) }
{
    let mut done = List::new(alloc);
    for w in all {
        done.push(copy_numbers(alloc, &[w.name])?)?;
    }
    Ok(done)
}

/// The variables of each name.
fn variables_by_name(alloc: Global, d: &Definition) -> Result<IndexMap<u32, List<u32>>, NoMemory>
    ensures { IfOk result (λ r. signals.AreVariables r d.now) }
{
    let keys = variable_keys(alloc, d.places.vars.as_slice())?;
    grouped(alloc, keys.as_slice())
}

impl BlockTables {
    /// Works out once what is looked up in a definition. It takes the time of its size, times the
    /// depth of its blocks.
    pub fn new(alloc: Global, tables: Tables) -> Result<BlockTables, NoMemory>
        ensures { IfOk result (λ r. r ≡ tables) }
    {
        let vars = variables_by_name(alloc, tables.definition())?;
        let tested = tested_outside(alloc, tables.definition(), &vars)?;
        let clocks = block_clocks(alloc, tables.definition().places.exprs.as_slice())?;
        Ok(BlockTables {
            tables,
            vars,
            tested,
            clocks,
        })
    }

    /// The definition with its other tables.
    pub fn tables(&self) -> &Tables
        ensures { result.now ≡ self.now }
    {
        &self.tables
    }

    /// The definition itself.
    pub fn definition(&self) -> &Definition
        ensures { result.now ≡ self.now }
    {
        self.tables.definition()
    }

    /// The clock of the block with the clock name `m`, by the first clock that is sampled on it.
    pub fn block_clock(&self, m: u32) -> Option<&ClockTerm>
        ensures { option_copied result ≡ clocks.noted m (spec.all_clocks self.now.places.exprs) }
    {
        self.clocks.get(&m)
    }

    /// The name of the first signal from outside that a `present` in an arm of the automaton with
    /// the clock names `m` and `m + 1` tests.
    pub fn tested_outside(&self, m: u32) -> Option<u32>
        ensures { result ≡ spec.tested_outside self.now m }
    {
        self.tested.get(&m).copied()
    }

    /// The signal of this name that is seen in these arms; None where it is a parameter.
    pub fn signal_at(&self, x: u32, p: &[(u32, u32)]) -> Option<u32>
        ensures { result ≡ spec.signal_at self.now x p.now }
    {
        signal_among(
            p,
            self.tables.definition().places.vars.as_slice(),
            group(&self.vars, x),
        )
    }
}
