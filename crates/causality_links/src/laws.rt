//! Laws: each function has an empty body and a law as its contract.

ghost use Rattle.causality_links.specs.Laws.{CausalByRules, FileIsCausal};

/// A numbering by the rules makes a body causal in the model, and all definitions of a file.
pub fn causality_goes_by_rules()
    ensures body { CausalByRules }
    ensures file { FileIsCausal }
{}
