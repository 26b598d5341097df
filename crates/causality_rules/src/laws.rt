//! Laws: each function has an empty body and a law as its contract.

ghost use Rattle.causality_rules.specs.Laws.{DefinitionNests, DefinitionPairs, RankedIsCausal, CyclicExcludes, CycleGivesItems, NotBoth};

/// A cycle of rows gives items that wait for one another, and these exclude a numbering.
pub fn cycles()
    ensures items { CycleGivesItems }
    ensures excluded { CyclicExcludes }
    ensures nests { DefinitionNests }
    ensures pairs { DefinitionPairs }
{}

/// A file is judged in one way.
pub fn files()
    ensures causal { RankedIsCausal }
    ensures both { NotBoth }
{}
