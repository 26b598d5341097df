//! The clock scheme of a definition.

use ls_base::List;
use ls_terms::ClockTerm;

/// What a definition's clocks are to those who call it: the clock of each parameter, and that of
/// the result, over variables that any clock may take the place of (after Colaço and Pouzet 2003).
#[derive(Debug, Drop)]
pub struct ClockScheme {
    pub clocks: List<ClockTerm>,
    pub result: ClockTerm,
    /// The numbers of the parameters that are clock names, in order.
    pub names: List<u32>,
}
