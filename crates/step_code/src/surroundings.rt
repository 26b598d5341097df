//! What is told about a list of instructions.

use crate::{CodeBody, InLine, Slot};
use ls_base::{List, Name};

/// What a list of instructions stands in: the enumerations, its slots, the lines of input that set
/// some of them, and the bodies that it may call, each with its call depth.
#[derive(Clone, Copy)]
pub(crate) struct Surroundings<'a> {
    pub cases: &'a [List<Name>],
    pub slots: &'a [Slot],
    pub inputs: &'a [InLine],
    pub bodies: &'a [CodeBody],
    pub depths: &'a [u32],
    /// The greatest depth of a body that the list may call.
    pub most: u32,
}
