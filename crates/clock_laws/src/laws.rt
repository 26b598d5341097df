//! Laws: each function has an empty body and a law as its contract.

ghost use Rattle.clock_laws.specs.Laws.{SchemeWellWherePrincipal, WellWherePrincipal};

/// Below a sampling on a name stands that name's clock, in each clock of a principal annotation and
/// of its scheme.
pub fn forms()
    ensures well { WellWherePrincipal }
    ensures scheme { SchemeWellWherePrincipal }
{}
