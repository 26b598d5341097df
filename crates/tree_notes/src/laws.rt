//! Laws: each function has an empty body and a law as its contract.

ghost use Rattle.tree_notes.specs.Laws.{PutsAFunction, PutsByState, GivesBack, GivesBodyBack, MadeOfEach, PutTwice, PutSame};

/// What the walk makes of a tree: with the notes of the old notes alone it puts a function at each
/// note; with numbered notes it can be undone, number by number. S are the states, A the notes of
/// an annotated tree, N those of the tree that is numbered, M those that are made.
pub fn walks<S, A, N, M>()
    ensures put { PutsAFunction S N M }
    ensures by_state { PutsByState S N M }
    ensures back { GivesBack S A N M }
    ensures body_back { GivesBodyBack S A N M }
    ensures each { MadeOfEach S N M }
{}

/// Trees with a function put at each note.
pub fn functions_put<N, M, K>()
    ensures twice { PutTwice N M K }
    ensures same { PutSame N }
{}
