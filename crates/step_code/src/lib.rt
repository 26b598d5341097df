//! Step code: what a node is compiled to. Its types, which step code is valid, and what a step
//! does.
#![tactic(auto)]

mod bodies;
mod code;
mod draft;
mod inputs;
mod lines;
mod marks;
mod parts;
mod push;
mod regions;
mod shapes;
mod surroundings;

pub use code::Code;
pub use draft::Draft;
pub use parts::{CodeBody, Fault, InLine, Instr, OutLine, Place, Slot, SlotKind};
