//! Laws: each function has an empty body and a law as its contract.

ghost use Rattle.compile_rules.specs.Laws.{CorePlanned, SchemeSolves, AreJoined, InstructionsDo, CodeSolves};

/// What is to be known of a core's equations in order follows from what its type keeps.
pub fn plans()
    ensures { CorePlanned }
{}

/// The steps of the scheme, over names of slots, and those of code that is made by it, give a full
/// solution of the core on every number of lines.
pub fn steps()
    ensures scheme { SchemeSolves }
    ensures code { CodeSolves }
{}

/// Regions of one guard are joined, and the instructions of joined regions do what their acts do.
pub fn regions()
    ensures joined { AreJoined }
    ensures same { InstructionsDo }
{}
