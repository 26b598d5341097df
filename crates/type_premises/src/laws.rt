//! Laws: each function has an empty body and a law as its contract.

ghost use Rattle.type_premises.specs.Premises.{FunctionsOfScope, SignaturesOfScope};

/// In each file whose names are resolved a parameter that is marked as a function is one in each
/// annotation that obeys the rules of types, after an environment whose parameters are so.
pub fn functions_come_from_scope()
    ensures functions { FunctionsOfScope }
    ensures signatures { SignaturesOfScope }
{}
