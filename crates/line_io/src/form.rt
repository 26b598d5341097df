ghost use Rattle.std.specs.Prelude.{◌≡◌, IfOk};

use ls_base::{List, Name, Names, NoMemory, NoteCopy};
use ls_value::{Leaf, Shape};
use std::alloc::Global;

/// What the lines of a node's inputs are made of: a field for each leaf of each parameter.
#[derive(Debug, Drop)]
pub struct InputForm {
    pub fields: List<Field>,
    /// The constructors of each enumeration, in order.
    pub cases: List<List<Name>>,
    pub names: Names,
}

/// A field of a line.
#[derive(Debug, Drop)]
pub struct Field {
    pub shape: Shape,
    /// Its clock: the places of fields, from 0, with the leaves that they must hold in the same
    /// line. A place past the last field holds none.
    pub on: List<(u32, Leaf)>,
    /// The number of the signal that it is a leaf of. Fields of one signal have one number.
    pub signal: Option<u32>,
}

fn copy_clock(on: &[(u32, Leaf)], alloc: Global) -> Result<List<(u32, Leaf)>, NoMemory>
    ensures { IfOk result (λ copy. copy ≡ on.now) }
{
    let mut done = List::new(alloc);
    for (at, leaf) in on {
        done.push((*at, *leaf))?;
    }
    Ok(done)
}

impl NoteCopy for Field {
    fn copy(&self, alloc: Global) -> Result<Field, NoMemory> {
        Ok(Field {
            shape: self.shape,
            on: copy_clock(self.on.as_slice(), alloc)?,
            signal: self.signal,
        })
    }
}

impl NoteCopy for InputForm {
    fn copy(&self, alloc: Global) -> Result<InputForm, NoMemory> {
        Ok(InputForm {
            fields: self.fields.copy(alloc)?,
            cases: self.cases.copy(alloc)?,
            names: self.names.copy(alloc)?,
        })
    }
}

/// What a node takes or gives at one leaf in one instant.
#[derive(Clone, Copy, Debug)]
pub enum Cell {
    /// The clock of the leaf is off.
    Absent,
    /// The leaf is of a signal that is not emitted.
    NotEmitted,
    Leaf(Leaf),
}

impl NoteCopy for Cell {
    fn copy(&self, _alloc: Global) -> Result<Cell, NoMemory> {
        Ok(*self)
    }
}

/// What a field of a line reads as.
#[derive(Clone, Copy, Debug)]
pub(crate) enum Reading {
    /// It is `.`.
    Dot,
    /// It spells this leaf.
    Leaf(Leaf),
    /// It is missing, or spells nothing.
    Bad,
}
