//! Accepted files.

ghost use Rattle.accepted_rules.specs.Accepted.{IsAccepted};

use ls_base::{List, Name};
use ls_sig::{Ann, InitSigs, Ranks, Sig};

/// A file of which all judgements hold: names in scope, types, clocks, initialisation and
/// causality. It keeps this in its type, so what compiles or runs it stands on the rules alone.
#[derive(Debug, Drop)]
pub struct Accepted {
    /// The trees, with a type and a clock at each place.
    pub ann: Ann,
    /// The signature of each definition: principal types and clocks.
    pub sigs: List<Sig>,
    /// The initialisation signature of each definition.
    pub inits: InitSigs,
    /// For each definition a number for each of its items, which rises along each read.
    pub ranks: Ranks,
    /// The name of each enumeration, by its number.
    pub enums: List<Name>,
    /// The constructors of each enumeration, by its number.
    pub constructors: List<List<Name>>,
    pub ghost judged: { ∥ IsAccepted ann sigs inits ranks enums constructors ∥₁ },
}
