//! Laws: each function has an empty body and a law as its contract.

ghost use Rattle.clock_rules.specs.Laws.{FactsTheSame, FindsTheSame, NoneWhereNoUnifier, NoneWhereUnmet, NotBoth, NotesFound, ObeysWhereUnified, OneLine, OneScheme, PrincipalWhereMet, SeenBare};

/// Why unification finds the principal annotation of a definition, or that none obeys.
pub fn inference()
    ensures obeys { ObeysWhereUnified }
    ensures principal { PrincipalWhereMet }
    ensures none { NoneWhereNoUnifier }
    ensures unmet { NoneWhereUnmet }
{}

/// A file is judged in one way: principal annotations make one scheme, and either each definition has
/// one or the first that none obeys stands at one line.
pub fn files()
    ensures scheme { OneScheme }
    ensures judged { NotBoth }
    ensures line { OneLine }
{}

/// Clocks that are seen inside the arms of blocks.
pub fn sampling()
    ensures bare { SeenBare }
{}

/// What is found in a body depends on its notes only where it holds them.
pub fn places<N, M>()
    ensures same { FindsTheSame N M }
    ensures facts { FactsTheSame N M }
    ensures notes { NotesFound N }
{}
