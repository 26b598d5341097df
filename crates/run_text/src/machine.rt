//! The machine that a run drives.
ghost use Rattle.std.specs.Prelude.{◌≡◌, ℕ, List, [], All, Option};
ghost use Rattle.line_io.specs.declared.form.Cell.{Cell};
ghost use Rattle.line_io.specs.Cells.{Fits};
ghost use Rattle.line_io.specs.Rows.{IsWritable, row_text};
ghost use Rattle.run_text.specs.RunText.{Node};
ghost use Rattle.run_text.specs.Machine.{after, stepped};

use line_io::{InputForm, Inputs, OutRow};
use ls_base::Steps;
use std::sync::ledger::Ledger;

/// Why an instant has no row.
#[derive(Clone, Copy, Debug, PartialEq, Eq)]
pub enum AlarmKind {
    /// A division by zero.
    Division,
}

/// What one step came to.
#[derive(Clone, Copy, Debug, PartialEq, Eq)]
pub enum Stepped {
    Done,
    Alarmed(AlarmKind),
}

/// A machine that takes one step for each line.
///
/// `node` is what it will answer: its rows and alarms at the lines that come next. So a step moves
/// it on by one line. `shown` is the row that it made last.
pub trait LineMachine {
    ghost node: { Self → Node };

    ghost shown: { Self → List Cell };

    /// The form of its lines, which has the names of the constructors in its rows, too.
    fn form(&self) -> &InputForm
        ensures { result.now ≡ (node self.now).form };

    /// One instant: takes the cells of a line, and adds to the steps what it takes.
    fn step<L: Ledger>(&mut self, inputs: &Inputs, steps: &mut Steps<L>) -> Stepped
        requires { Fits (node self.old).form inputs.now }
        ensures next { node self.new ≡ after (node self.old) inputs.now }
        ensures alarm { result ≡ stepped ((node self.old).alarm_at [] inputs.now) }
        ensures row { result ≡ Stepped.Done → row_text (node self.old).form (shown self.new) ≡ (node self.old).row_at [] inputs.now }
        ensures writable { result ≡ Stepped.Done → All (IsWritable (node self.old).form) (shown self.new) };

    /// The row of the last step that made one.
    fn row(&self) -> &OutRow
        ensures { result.now ≡ shown self.now };
}
