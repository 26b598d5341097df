//! Laws: each function has an empty body and a law as its contract.

ghost use Rattle.core_lang.specs.Laws.{HasSolution, OnlySolution};

/// The equations of a core in order have one full solution, whatever the lines are.
pub fn solutions()
    ensures exists { HasSolution }
    ensures only { OnlySolution }
{}
