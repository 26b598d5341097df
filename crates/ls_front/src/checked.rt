//! What the judgements on a file give.

use ls_base::{List, Name};
use ls_sig::{Ann, InitSigs, Sig};

/// A file that passed the judgements, with what they give.
#[derive(Debug, Drop)]
pub struct Checked {
    /// The trees, with a type and a clock at each place.
    pub ann: Ann,
    /// The signature of each definition: principal types and clocks.
    pub sigs: List<Sig>,
    /// The initialisation signature of each definition.
    pub inits: InitSigs,
    /// The name of each enumeration, by its number.
    pub enums: List<Name>,
    /// The constructors of each enumeration, by its number.
    pub constructors: List<List<Name>>,
}
