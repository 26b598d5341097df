//! The parts of step code.

use ls_base::List;
use ls_ops::Op;
use ls_value::{Leaf, Shape};

/// A slot, which holds a leaf.
#[derive(Clone, Copy, Debug)]
pub struct Slot {
    pub shape: Shape,
    pub kind: SlotKind,
}

/// What a slot holds before the first step, and who sets it.
#[derive(Clone, Copy, Debug)]
pub enum SlotKind {
    /// Nil, until a line writes it.
    Plain,
    /// This leaf.
    Mem(Leaf),
    /// An operand of a body: the list that calls the body sets it before the call.
    Arg,
}

/// A line of input: the slot that takes the next field of a line.
#[derive(Debug, Drop)]
pub struct InLine {
    pub slot: u32,
    /// The slot that says whether the signal of the field is emitted. Lines of one signal name one
    /// slot.
    pub signal: Option<u32>,
    /// The clock of the field: the numbers of lines of input, from 0, with the leaves that their
    /// fields must hold.
    pub on: List<(u32, Leaf)>,
}

/// A line of output: the slot that is written, where the guard holds true.
#[derive(Clone, Copy, Debug)]
pub struct OutLine {
    pub slot: u32,
    pub guard: Option<u32>,
}

/// A list of instructions over slots of its own, which other lists call.
#[derive(Debug, Drop)]
pub struct CodeBody {
    pub slots: List<Slot>,
    pub list: List<Instr>,
}

/// An instruction. The slot that it writes stands first, after the operator.
#[derive(Clone, Copy, Debug)]
pub enum Instr {
    Const(u32, Leaf),
    Copy(u32, u32),
    Op1(Op, u32, u32),
    Op2(Op, u32, u32, u32),
    Op3(Op, u32, u32, u32, u32),
    /// Whether a slot holds the leaf; Nil where it holds Nil.
    Test(u32, u32, Leaf),
    /// A region: so many of the next instructions are evaluated only where the guard holds true.
    When(u32, u32),
    /// A body, and where its window of slots begins.
    Call(u32, u32),
}

/// Why a line of step code is refused.
#[derive(Clone, Copy, Debug, PartialEq, Eq)]
pub enum Fault {
    /// A number names nothing, or what it names is taken.
    Slot,
    /// A slot is read before it is written, or written where it may not be, or a region or a
    /// call goes too far.
    Order,
    /// A leaf or a slot has not the shape that its place wants.
    Shape,
}

/// A line of step code, by its number in its list, from 0.
#[derive(Clone, Copy, Debug, PartialEq, Eq)]
pub enum Place {
    Slot(u32),
    In(u32),
    Out(u32),
    /// A slot of a body: the body first.
    BodySlot(u32, u32),
    /// An instruction of a body: the body first.
    BodyLine(u32, u32),
    Line(u32),
}
