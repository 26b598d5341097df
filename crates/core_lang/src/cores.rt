//! Cores.

ghost use Rattle.core_lang.specs.Cores.{IsCore, RanksRise};

use crate::{CoreEq, CoreOut};
use line_io::InputForm;
use ls_base::List;

/// Equations on leaves, after the clocked data-flow equations of Biernacki, Colaço, Hamon and
/// Pouzet (2008). Variables are numbered without gaps: first the fields of a line, then one for
/// each signal of the lines, which says whether it is emitted, then those of the equations.
#[derive(Debug, Drop)]
pub struct Core {
    pub eqs: List<CoreEq>,
    pub inputs: InputForm,
    pub outputs: List<CoreOut>,
    pub ghost agrees: { ∥ IsCore eqs inputs outputs ∥₁ },
}

/// A core whose equations stand in an order in which each reads at once what stands before it.
#[derive(Debug, Drop)]
pub struct Ordered {
    pub core: Core,
    pub ghost rising: { RanksRise core.eqs },
}
