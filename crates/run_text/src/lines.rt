//! The loop over the lines of the input.
ghost use Rattle.std.specs.Prelude.{◌≡◌, ◌≤◌, ◌⊎◌, [], IfSome, IsSome, length};
ghost use Rattle.ls_base.specs.Outside.{Rose, WritesFront};
ghost use Rattle.line_io.specs.Line.{ahead};
ghost use Rattle.run_text.specs.Progress.{Adds, IsBegun, IsOver, IsRead, stop_of};
ghost use Rattle.run_text.specs.OneLine.{HasRow, IsStuck};

use crate::find::{Found, find_line};
use crate::machine::{AlarmKind, LineMachine, Stepped};
use line_io::{Inputs, LineBuf, RowBuffer, read_inputs};
use ls_base::{Failed, Sink, Source, Steps};
use std::sync::ledger::Ledger;

/// What stopped a run.
#[derive(Clone, Copy, Debug, PartialEq, Eq)]
pub enum DriveEnd {
    /// The input was read to its end.
    End,
    /// The greatest number of lines was answered.
    Max,
    /// The line of this number does not spell the node's inputs.
    BadLine(u32),
    /// The instant of this number has no row.
    Alarm(AlarmKind, u32),
    /// The next line has more than 65,536 bytes.
    LongLine,
    /// A read failed.
    ReadFault,
    /// A write failed.
    WriteFault,
}

/// How one line was answered.
#[derive(Clone, Copy, Debug, PartialEq, Eq)]
enum Answer {
    /// The machine shows the row.
    Row,
    Bad,
    Alarmed(AlarmKind),
}

/// Answers a line by one step of the machine.
fn answer_line<M: LineMachine, L: Ledger>(
    machine: &mut M,
    line: &[u8],
    inputs: &mut Inputs,
    steps: &mut Steps<L>,
) -> Answer
    requires { length inputs.old ≡ length (M.node machine.old).form.fields }
    ensures row { result ≡ Answer.Row → HasRow (M.node machine.old) (M.node machine.new) (M.shown machine.new) line.now }
    ensures stuck { IsStuck result (M.node machine.old) line.now }
    ensures width { length inputs.new ≡ length inputs.old }
{
    match read_inputs(line, machine.form(), inputs) {
        Err(_) => Answer::Bad,
        Ok(()) => match machine.step(inputs, steps) {
            Stepped::Alarmed(kind) => Answer::Alarmed(kind),
            Stepped::Done => Answer::Row,
        },
    }
}

/// Answers the lines of the input by a machine before its first step, at most `max` of them, each
/// before more is read. What is written is the text of the run over the bytes that the buffer
/// holds followed by those of the source, but for its closing line; no memory is taken.
pub fn drive<M: LineMachine, S: Source, K: Sink, L: Ledger>(
    machine: &mut M,
    buffer: &mut LineBuf,
    inputs: &mut Inputs,
    input: &mut S,
    out: &mut K,
    max: u32,
    steps: &mut Steps<L>,
) -> DriveEnd
    requires { length inputs.old ≡ length (M.node machine.old).form.fields }
    ensures run { IfSome (stop_of result) (λ stop. IsOver (M.node machine.old) max (ahead buffer.old.held (S.left input.old)) stop (K.written out.old) (K.written out.new)) }
    ensures read { result ≡ DriveEnd.ReadFault → IsRead (M.node machine.old) max (ahead buffer.old.held (S.left input.old)) (S.left input.new) (K.written out.old) (K.written out.new) }
    ensures front { result ≡ DriveEnd.WriteFault → IsBegun (M.node machine.old) max (ahead buffer.old.held (S.left input.old)) (K.written out.old) (K.written out.new) }
    ensures read_fault { result ≡ DriveEnd.ReadFault → Rose (S.count input.old) (S.count input.new) }
    ensures write_fault { result ≡ DriveEnd.WriteFault → Rose (K.count out.old) (K.count out.new) }
    ensures reads { S.count input.old ≤ S.count input.new }
    ensures writes { K.count out.old ≤ K.count out.new }
{
    let mut rows = RowBuffer::new();
    for answered in 0..max {
        match find_line(buffer, &mut rows, input, out) {
            Found::Line => {}
            Found::End => return DriveEnd::End,
            Found::LongLine => return DriveEnd::LongLine,
            Found::ReadFault => return DriveEnd::ReadFault,
            Found::WriteFault => return DriveEnd::WriteFault,
        }
        match answer_line(machine, buffer.line(), inputs, steps) {
            Answer::Row => {}
            Answer::Bad => return flushed(DriveEnd::BadLine(answered + 1), &mut rows, out),
            Answer::Alarmed(kind) => {
                return flushed(DriveEnd::Alarm(kind, answered + 1), &mut rows, out);
            }
        }
        if let Err(Failed) = rows.put_row(machine.row(), machine.form(), out) {
            return DriveEnd::WriteFault;
        }
    }
    flushed(DriveEnd::Max, &mut rows, out)
}

/// How a run ends when the rows that are held back have been written.
fn flushed<K: Sink>(end: DriveEnd, rows: &mut RowBuffer, out: &mut K) -> DriveEnd
    requires { IsSome (stop_of end) }
    ensures ended { (result ≡ end) ⊎ (result ≡ DriveEnd.WriteFault) }
    ensures written { result ≡ end → Adds (K.written out.old) rows.old (K.written out.new) }
    ensures front { result ≡ DriveEnd.WriteFault → WritesFront (K.written out.old) rows.old (K.written out.new) }
    ensures failed { result ≡ DriveEnd.WriteFault → Rose (K.count out.old) (K.count out.new) }
    ensures counted { K.count out.old ≤ K.count out.new }
{
    match rows.flush(out) {
        Ok(()) => end,
        Err(Failed) => DriveEnd::WriteFault,
    }
}
