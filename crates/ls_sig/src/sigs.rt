//! Signatures of definitions, and the numbering of what a definition computes.

ghost use Rattle.std.specs.Prelude.{◌≡◌, IfOk};

use ls_ast::Mark;
use ls_base::{List, Name, NoMemory, NoteCopy};
use ls_terms::{ClockTerm, Kind, TypeTerm};
use std::alloc::Global;

/// The signature of a definition: its type scheme and its clock scheme. The lists have an item
/// for each parameter.
#[derive(Debug, Drop)]
pub struct Sig {
    pub name: Name,
    pub kind: Kind,
    pub marks: List<Mark>,
    pub params: List<TypeTerm>,
    pub result: TypeTerm,
    pub clocks: List<ClockTerm>,
    pub result_clock: ClockTerm,
    /// The numbers of the parameters that are clock names, in order.
    pub clock_names: List<u32>,
}

/// The initialisation signature of a definition. The lists have an item for each parameter.
#[derive(Debug, Drop)]
pub struct InitSig {
    /// Whether the argument may be undefined at a first instant.
    pub may: List<bool>,
    /// Whether the result is undefined then.
    pub reaches: List<bool>,
    /// Whether the result is undefined at a first instant whatever the arguments are.
    pub own: bool,
}

/// The initialisation signatures of the definitions of a file, in order.
#[derive(Debug, Drop)]
pub struct InitSigs {
    pub list: List<InitSig>,
}

/// What is computed at each instant: a variable, the initial equation of a variable, the selector
/// of a `match` or `present`, the tested and the active row of an automaton. Blocks count from 0
/// in the order of the text.
#[derive(Clone, Copy, Debug, PartialEq, Eq)]
pub enum Item {
    Var(u32),
    Initial(u32),
    Selector(u32),
    Tested(u32),
    Active(u32),
}

/// For each definition of a file, a number for each of its items, which rises along each read.
#[derive(Debug, Drop)]
pub struct Ranks {
    pub list: List<List<(Item, u32)>>,
}

impl NoteCopy for Sig {
    fn copy(&self, alloc: Global) -> Result<Sig, NoMemory> {
        Ok(Sig {
            name: self.name,
            kind: self.kind,
            marks: self.marks.copy(alloc)?,
            params: self.params.copy(alloc)?,
            result: self.result.copy(alloc)?,
            clocks: self.clocks.copy(alloc)?,
            result_clock: self.result_clock.copy(alloc)?,
            clock_names: self.clock_names.copy(alloc)?,
        })
    }
}

impl NoteCopy for InitSig {
    fn copy(&self, alloc: Global) -> Result<InitSig, NoMemory> {
        Ok(InitSig {
            may: self.may.copy(alloc)?,
            reaches: self.reaches.copy(alloc)?,
            own: self.own,
        })
    }
}

impl NoteCopy for InitSigs {
    fn copy(&self, alloc: Global) -> Result<InitSigs, NoMemory> {
        Ok(InitSigs {
            list: self.list.copy(alloc)?,
        })
    }
}

impl NoteCopy for Item {
    fn copy(&self, _alloc: Global) -> Result<Item, NoMemory> {
        Ok(*self)
    }
}

impl NoteCopy for Ranks {
    fn copy(&self, alloc: Global) -> Result<Ranks, NoMemory> {
        Ok(Ranks {
            list: self.list.copy(alloc)?,
        })
    }
}
