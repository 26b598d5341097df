//! Laws of scope: each function has an empty body and a law as its contract.

ghost use Rattle.scope_rules.specs.Laws.{VariablesAsFound, ExpressionsAsFound, UsesInSight, FunctionsUsed, HeadsOnTree, EnumsOnTree, ResolvedAgain, FaultAgain, NotesInSight};

/// What scope sees in a body is what `find` sees: the variables in the same order, each with its
/// list, and the expressions with the arms around them.
pub fn bodies_are_seen_alike<N>()
    ensures variables { VariablesAsFound N }
    ensures expressions { ExpressionsAsFound N }
{}

/// Each use of a variable stands inside the list that binds its name, and the number of each
/// variable, parameter, definition and constructor is of one that is there.
pub fn uses_are_in_sight<N>()
    ensures { UsesInSight N }
{}

/// A parameter that is marked as a function is applied, or passed as one.
pub fn functions_are_used<N>()
    ensures { FunctionsUsed N }
{}

/// The kinds and the marks of earlier definitions, and the enumerations, can be read off the
/// resolved tree.
pub fn heads_stand_on_the_tree<N>()
    ensures heads { HeadsOnTree N }
    ensures enums { EnumsOnTree N }
{}

/// The file that resolution gives has the scope of the file that was resolved, and gives itself.
pub fn resolved_files_give_themselves()
    ensures file { ResolvedAgain }
    ensures fault { FaultAgain }
{}

/// Each expression of a resolved body, where `find` sees it, has as its notes the binders of its
/// names at its place, and these are in sight there.
pub fn notes_are_in_sight()
    ensures { NotesInSight }
{}
