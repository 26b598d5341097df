//! The row is made from the slots.

ghost use Rattle.std.specs.Prelude.{◌≡◌, ◌<◌, All, length, map};
ghost use Rattle.step_code.specs.Steps.{out_cell as cell_of};
ghost use Rattle.step_runner.specs.Ranges.{OutWithin};

use crate::leaves::is_true;
use line_io::{Cell, OutRow};
use ls_value::Leaf;
use step_code::OutLine;

fn out_cell(slots: &[Leaf], line: &OutLine) -> Cell
    requires { OutWithin (length slots.now) line.now }
    ensures { result ≡ cell_of slots.now line.now }
{
    let leaf = slots[line.slot as usize];
    match line.guard {
        None => Cell::Leaf(leaf),
        Some(guard) => if is_true(&slots[guard as usize]) {
            Cell::Leaf(leaf)
        } else {
            Cell::Absent
        },
    }
}

/// Makes the row of the slots.
pub(crate) fn set_row(outputs: &[OutLine], slots: &[Leaf], row: &mut OutRow)
    requires outputs { All (OutWithin (length slots.now)) outputs.now }
    requires all { length row.old ≡ length outputs.now }
    ensures { row.new ≡ map (cell_of slots.now) outputs.now }
{
    for (i, line) in outputs.iter().enumerate() {
        row.set(i, out_cell(slots, line));
    }
}
