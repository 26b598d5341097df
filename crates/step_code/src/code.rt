//! Step code that is valid.

ghost use Rattle.std.specs.Prelude.{IsTrue, ◌≡◌, is_none};
ghost use Rattle.step_code.specs.Valid.{is_formed, first_fault};

use crate::{CodeBody, InLine, Instr, OutLine, Slot};
use ls_base::{List, Name, Names};

/// Step code. It is valid: it is well formed, and no line of it has a fault.
#[derive(Debug, Drop)]
pub struct Code {
    /// The constructors of each enumeration, in order.
    pub cases: List<List<Name>>,
    pub names: Names,
    pub slots: List<Slot>,
    pub inputs: List<InLine>,
    pub outputs: List<OutLine>,
    pub bodies: List<CodeBody>,
    pub main: List<Instr>,
    pub ghost formed: { IsTrue (is_formed (record { cases = cases; names = names; slots = slots; inputs = inputs; outputs = outputs; bodies = bodies; main = main; body_lacks = 0; main_lacks = 0 })) },
    pub ghost faultless: { IsTrue (is_none (first_fault (record { cases = cases; names = names; slots = slots; inputs = inputs; outputs = outputs; bodies = bodies; main = main; body_lacks = 0; main_lacks = 0 }))) },
}
