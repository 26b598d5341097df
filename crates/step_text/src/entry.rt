//! What a line of the text says.

use ls_base::List;
use step_code::{InLine, Instr, OutLine, Slot};

/// The word that a line begins with.
#[derive(Clone, Copy, Debug, PartialEq, Eq)]
pub(crate) enum Keyword {
    Lsc,
    Type,
    Slots,
    Slot,
    In,
    Out,
    Body,
    Code,
    End,
    Const,
    Copy,
    Op,
    Test,
    When,
    Call,
}

/// What a line says.
#[derive(Debug, Drop)]
pub(crate) enum Entry {
    /// That the text is step code.
    Header,
    /// An enumeration: the spellings of its constructors.
    Cases(List<List<u8>>),
    /// The number of slots.
    Slots(u32),
    /// A slot, with its number.
    Slot(u32, Slot),
    In(InLine),
    Out(OutLine),
    /// The number of a body, and how many slots and instructions follow.
    Body(u32, u32, u32),
    /// How many instructions of the main list follow.
    Code(u32),
    Instr(Instr),
    End,
}
