//! The slots of the inputs are set from a line.

ghost use Rattle.std.specs.Prelude.{◌≡◌, ◌<◌, All, length, set};
ghost use Rattle.step_code.specs.Steps.{input_leaf as leaf_of, is_emitted as emitted_of, with_signal, with_inputs};
ghost use Rattle.step_runner.specs.Ranges.{InWithin};

use line_io::{Cell, Inputs};
use ls_value::Leaf;
use step_code::InLine;

fn input_leaf(cell: &Cell) -> Leaf
    ensures { result ≡ leaf_of cell.now }
{
    match cell {
        Cell::Leaf(leaf) => *leaf,
        _ => Leaf::Nil,
    }
}

fn is_emitted(cell: &Cell) -> bool
    ensures { result ≡ emitted_of cell.now }
{
    matches!(cell, Cell::Leaf(_))
}

fn set_signal(line: &InLine, cell: &Cell, slots: &mut [Leaf])
    requires { InWithin (length slots.old) line.now }
    ensures { slots.new ≡ with_signal line.now.signal cell.now slots.old }
{
    if let Some(signal) = line.signal {
        slots[signal as usize] = Leaf::Bool(is_emitted(cell));
    }
}

fn set_input(line: &InLine, cell: &Cell, slots: &mut [Leaf])
    requires { InWithin (length slots.old) line.now }
    ensures { slots.new ≡ with_signal line.now.signal cell.now (set slots.old line.now.slot (leaf_of cell.now)) }
{
    slots[line.slot as usize] = input_leaf(cell);
    set_signal(line, cell, slots);
}

/// Sets the slot of each line of input from its field, and those of the signals.
pub(crate) fn set_inputs(lines: &[InLine], inputs: &Inputs, slots: &mut [Leaf])
    requires { All (InWithin (length slots.old)) lines.now }
    ensures { slots.new ≡ with_inputs lines.now inputs.now slots.old }
{
    for (i, line) in lines.iter().enumerate() {
        let Some(cell) = inputs.get(i) else {
            return;
        };
        set_input(line, &cell, slots);
    }
}
