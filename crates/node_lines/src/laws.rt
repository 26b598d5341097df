//! Laws of the lines of a node: each function has an empty body and a law as its contract.

ghost use Rattle.node_lines.specs.Laws.{AbsentByClock, ResultsWritable};

/// In a line that the form spells, the cell of a parameter is absent exactly where its clock is
/// off.
pub fn arguments_go_by_clocks()
    ensures { AbsentByClock }
{}

/// The cells of a result can be written where each constructor in its value is the form's.
pub fn results_can_be_written()
    ensures { ResultsWritable }
{}
