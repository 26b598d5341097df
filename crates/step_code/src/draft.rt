//! Step code that is not yet judged.

ghost use Rattle.std.specs.Prelude.{◌≡◌, IsTrue, is_none};

use crate::{Code, CodeBody, InLine, Instr, OutLine, Slot};
use ls_base::{List, Name, Names};

/// Step code as it was written, which may break off before its end: then the last list that was
/// begun lacks some of its lines.
#[derive(Debug, Drop)]
pub struct Draft {
    pub cases: List<List<Name>>,
    pub names: Names,
    pub slots: List<Slot>,
    pub inputs: List<InLine>,
    pub outputs: List<OutLine>,
    pub bodies: List<CodeBody>,
    pub main: List<Instr>,
    /// The number of instructions that the last body lacks.
    pub body_lacks: u32,
    /// The number of instructions that the main list lacks.
    pub main_lacks: u32,
}

impl Draft {
    ghost use Rattle.step_code.specs.Drafts.{draft_of};
    ghost use Rattle.step_code.specs.Valid.{first_fault, is_formed};

    /// The code of a draft that is whole, well formed and without fault.
    pub fn into_code(self) -> Code
        requires whole { (self.body_lacks ≡ 0) × (self.main_lacks ≡ 0) }
        requires formed { IsTrue (is_formed self) }
        requires faultless { IsTrue (is_none (first_fault self)) }
        ensures { draft_of result ≡ self }
    {
        let Draft {
            cases,
            names,
            slots,
            inputs,
            outputs,
            bodies,
            main,
            body_lacks: _,
            main_lacks: _,
        } = self;
        Code {
            cases,
            names,
            slots,
            inputs,
            outputs,
            bodies,
            main,
        }
    }
}
