//! The notes that expressions and parameters carry.

ghost use Rattle.std.specs.Prelude.{◌≡◌, IfOk};

use ls_ast::FileOf;
use ls_base::{List, NoMemory, NoteCopy};
use ls_terms::{ClockTerm, TypeTerm};
use std::alloc::Global;

/// What a name means at one of its uses. Numbers count from 0 in the order of the text.
#[derive(Clone, Copy, Debug, PartialEq, Eq)]
pub enum Binder {
    /// The expression uses no name.
    Nothing,
    /// The `let` definition of this number in the file.
    Def(u32),
    /// The name of this number among those in the definition's parameters.
    Param(u32),
    /// The name of this number among the others that the definition binds. A name that several
    /// arms of a block bind counts once, at its first place.
    Var(u32),
    /// The enumeration, and the place of the constructor in it.
    Case(u32, u32),
}

/// The note after resolution of names.
#[derive(Debug, Drop)]
pub struct Use {
    pub bound: Binder,
}

/// The note after type inference.
#[derive(Debug, Drop)]
pub struct TypeNote {
    pub bound: Binder,
    pub ty: TypeTerm,
}

/// The note after clock inference.
#[derive(Debug, Drop)]
pub struct Note {
    pub bound: Binder,
    pub ty: TypeTerm,
    pub ck: ClockTerm,
    /// The variables, by their numbers among those that the definition binds, at whose instants
    /// of presence and truth the expression restarts, beside those at which its place does. The
    /// list is empty in every annotated file; it is filled where a compiler dissolves resets.
    pub restarts: List<u32>,
}

/// A file whose names are resolved.
pub type Resolved = FileOf<Use>;

/// A file with its types.
pub type Typed = FileOf<TypeNote>;

/// A file with its types and clocks.
pub type Ann = FileOf<Note>;

impl NoteCopy for Use {
    fn copy(&self, _alloc: Global) -> Result<Use, NoMemory> {
        Ok(Use { bound: self.bound })
    }
}

impl NoteCopy for Binder {
    fn copy(&self, _alloc: Global) -> Result<Binder, NoMemory> {
        Ok(*self)
    }
}

impl NoteCopy for TypeNote {
    fn copy(&self, alloc: Global) -> Result<TypeNote, NoMemory> {
        Ok(TypeNote {
            bound: self.bound,
            ty: self.ty.copy(alloc)?,
        })
    }
}

impl NoteCopy for Note {
    fn copy(&self, alloc: Global) -> Result<Note, NoMemory> {
        Ok(Note {
            bound: self.bound,
            ty: self.ty.copy(alloc)?,
            ck: self.ck.copy(alloc)?,
            restarts: self.restarts.copy(alloc)?,
        })
    }
}
