//! Laws: each function has an empty body and a law as its contract.

ghost use Rattle.type_rules.specs.Laws.{ObeysWhereMeets, UnifierMeets, TypedByUnifier, NoneWithoutData, NoneWithoutUnifier, JudgedWithMore, ErasesBack, EachIsAnnotation, SameNumbered};

/// The types of a definition's places obey the rules where they meet its demands, and a unifier
/// gives such types.
pub fn demands()
    ensures obeys { ObeysWhereMeets }
    ensures unifier { UnifierMeets }
{}

/// A most general unifier tells whether a definition is typed within a limit, and then gives its
/// principal annotation (after Damas and Milner 1982).
pub fn inference()
    ensures typed { TypedByUnifier }
    ensures no_data { NoneWithoutData }
    ensures no_unifier { NoneWithoutUnifier }
{}

/// The judgement on a file goes on from definition to definition.
pub fn files()
    ensures { JudgedWithMore }
{}

/// The annotations of a definition are the typed definitions with its erasure.
pub fn erasure()
    ensures back { ErasesBack }
    ensures each { EachIsAnnotation }
{}

/// Types that are instances of one another make one signature.
pub fn signatures()
    ensures { SameNumbered }
{}
