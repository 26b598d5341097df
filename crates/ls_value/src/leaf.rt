ghost use Rattle.std.specs.Prelude.{◌≡◌, ◌↔◌, IsTrue};

use crate::{Glyph, Text};

/// A leaf of a value.
#[derive(Clone, Copy, Debug, PartialEq, Eq)]
pub enum Leaf {
    /// The missing value.
    Nil,
    Int(i64),
    Bool(bool),
    Char(Glyph),
    Text(Text),
    /// The number of an enumeration and the place of one of its constructors, both from 0.
    Enum(u32, u32),
    Unit,
}

/// What a leaf may be, apart from Nil, which fits every shape.
#[derive(Clone, Copy, Debug, PartialEq, Eq)]
pub enum Shape {
    Int,
    Bool,
    Char,
    Text,
    /// The number of the enumeration.
    Enum(u32),
    Unit,
}

impl Leaf {
    /// Whether both are the same leaf.
    pub fn same(&self, other: &Leaf) -> bool
        ensures { IsTrue result ↔ (self.now ≡ other.now) }
    {
        match (self, other) {
            (Leaf::Nil, Leaf::Nil) | (Leaf::Unit, Leaf::Unit) => true,
            (Leaf::Int(one), Leaf::Int(two)) => one == two,
            (Leaf::Bool(one), Leaf::Bool(two)) => one == two,
            (Leaf::Char(one), Leaf::Char(two)) => one.byte() == two.byte(),
            (Leaf::Text(one), Leaf::Text(two)) => one.bytes() == two.bytes(),
            (Leaf::Enum(one, place), Leaf::Enum(two, other_place)) => one == two
                && place == other_place,
            _ => false,
        }
    }
}
