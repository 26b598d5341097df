//! Laws: each function has an empty body and a law as its contract.

ghost use Rattle.init_rules.specs.Files.{JudgedWithMore, OneJudgement, NotBoth};
ghost use Rattle.init_rules.specs.Init.{InitialisedByFlow, MayByFlow, OwnByFlow, ReachesByFlow, SeveralByFlow};
ghost use Rattle.init_rules.specs.Searches.{SearchesDecide, GraphIsThere, DefinitionStands};
ghost use Rattle.init_rules.specs.Signatures.{InitialisedIs, MayIs, OwnIs, ReachesIs, LeastThere, LeastDecides, LeastResult, SeveralParameters};

/// One assignment lies below all others, and decides whether there is one that asks for nothing.
pub fn one_assignment_decides()
    ensures there { LeastThere }
    ensures decides { LeastDecides }
    ensures result { LeastResult }
{}

/// What flows where decides which assignments a system of bits has.
pub fn flows_decide()
    ensures initialised { InitialisedIs }
    ensures may { MayIs }
    ensures own { OwnIs }
    ensures reaches { ReachesIs }
    ensures several { SeveralParameters }
{}

/// What flows where between the variables of a definition decides whether it is initialised, and
/// its signature. At a call several arguments may be undefined at once.
pub fn initialisation_goes_by_flow()
    ensures initialised { InitialisedByFlow }
    ensures may { MayByFlow }
    ensures own { OwnByFlow }
    ensures reaches { ReachesByFlow }
    ensures several { SeveralByFlow }
{}

/// A file is judged in one way, definition by definition.
pub fn files()
    ensures more { JudgedWithMore }
    ensures one { OneJudgement }
    ensures both { NotBoth }
{}

/// The rules of a definition as a graph of numbers, in the size of its text: two searches in it
/// give the signature.
pub fn searches_decide()
    ensures decide { SearchesDecide }
    ensures graph { GraphIsThere }
    ensures stands { DefinitionStands }
{}
