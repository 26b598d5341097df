//! Laws: each function has an empty body and a law as its contract.

ghost use Rattle.causality_accepted.specs.Laws.{AcceptedIsCausal, BodiesAreClose, BodiesAreScoped, ClocksAreKnown, JudgedIsCausal, ResultsAreKnown, TablesAreFull};

/// In each definition of a judged file clocks are sampled on names of the definition alone, all
/// that the model reads is a row of the body, and what the rules of causality do not name stands
/// around.
pub fn judged_bodies()
    ensures known { ClocksAreKnown }
    ensures close { BodiesAreClose }
    ensures scoped { BodiesAreScoped }
{}

/// Where the items of a judged file are numbered, all its definitions are causal in the model.
pub fn judged_files()
    ensures { JudgedIsCausal }
{}

/// All definitions of an accepted file are causal in the model. So the table of each call is full,
/// and a node's result is known where its input is, as long as calls nest no deeper than the depth
/// left.
pub fn accepted_files()
    ensures causal { AcceptedIsCausal }
    ensures full { TablesAreFull }
    ensures known { ResultsAreKnown }
{}
