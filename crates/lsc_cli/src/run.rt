//! A machine is run over the input.
ghost use Rattle.std.specs.Prelude.{◌≡◌, ◌<◌, ◌≤◌, ◌⊎◌, [], length, true, IfSome, IsNone};
ghost use Rattle.ls_base.specs.Outside.{Rose};
ghost use Rattle.run_text.specs.Progress.{stop_of};
ghost use Rattle.lsc_cli.specs.Call.{HasCause, IsInner};
ghost use Rattle.lsc_cli.specs.Run.{Closes, Runs, status_at};
ghost use Rattle.lsc_cli.specs.Status.{is_about_file};

use crate::status::Status;
use line_io::{Inputs, LineBuf};
use ls_base::{Failed, Sink, Source, Steps};
use run_text::{DriveEnd, LineMachine, drive, write_closing};
use std::alloc::Global;
use std::marker::Brand;
use std::sync::ledger::{Blank, Ledger};

/// Answers at most `most` lines of the input by a machine before its first step. All memory is
/// taken before the first byte of input.
pub(crate) fn run_machine<M: LineMachine, S: Source, K: Sink>(
    alloc: Global,
    machine: &mut M,
    most: u32,
    input: &mut S,
    out: &mut K,
) -> Status
    ensures runs { is_about_file result ≡ true → Runs (M.node machine.old) most (S.left input.old) (S.left input.new) result (K.written out.old) (K.written out.new) }
    ensures inner { IsInner result (S.count input.old) (S.count input.new) (K.count out.old) (K.count out.new) ((input.new ≡ input.old) × (out.new ≡ out.old)) }
{
    let Ok(mut inputs) = Inputs::new(alloc, machine.form()) else {
        return Status::NoMemory;
    };
    let Ok(mut buffer) = LineBuf::new(alloc) else {
        return Status::NoMemory;
    };
    let ledger = Blank::new(1);
    answer_lines::<M, S, K, Brand>(machine, &mut buffer, &mut inputs, most, input, out, ledger)
}

/// The same where the memory is taken; the steps that the machine counts are nobody's.
fn answer_lines<M: LineMachine, S: Source, K: Sink, L: Ledger>(
    machine: &mut M,
    buffer: &mut LineBuf,
    inputs: &mut Inputs,
    most: u32,
    input: &mut S,
    out: &mut K,
    ledger: Blank,
) -> Status
    requires name { ledger.name ≡ L.name }
    requires parts { ledger.parts ≡ L.parts }
    requires some { 0 < L.parts }
    requires inputs { length inputs.old ≡ length (M.node machine.old).form.fields }
    requires held { buffer.old.held ≡ [] }
    ensures runs { Runs (M.node machine.old) most (S.left input.old) (S.left input.new) result (K.written out.old) (K.written out.new) }
    ensures inner { is_about_file result ≡ true }
    ensures causes { HasCause result (S.count input.old) (S.count input.new) (K.count out.old) (K.count out.new) ((input.new ≡ input.old) × (out.new ≡ out.old)) }
{
    let mut steps: Steps<L> = Steps::new(ledger);
    let end = drive(machine, buffer, inputs, input, out, most, &mut steps);
    close(end, out)
}

/// The status of a run that ended so, where its closing line is written.
fn status_of(end: DriveEnd) -> Status
    ensures { result ≡ status_at end }
{
    match end {
        DriveEnd::End | DriveEnd::Max => Status::Done,
        DriveEnd::LongLine => Status::TooLarge,
        DriveEnd::BadLine(_) => Status::BadLine,
        DriveEnd::Alarm(_, _) => Status::Alarm,
        DriveEnd::ReadFault => Status::ReadFault,
        DriveEnd::WriteFault => Status::WriteFault,
    }
}

/// Writes the line that closes a run, where there is one.
fn close<K: Sink>(end: DriveEnd, out: &mut K) -> Status
    ensures closed { IfSome (stop_of end) (λ stop. Closes stop result (K.written out.old) (K.written out.new)) }
    ensures fault { IsNone (stop_of end) → (out.new ≡ out.old) × (result ≡ status_at end) }
    ensures status { (result ≡ status_at end) ⊎ ((result ≡ Status.WriteFault) × Rose (K.count out.old) (K.count out.new)) }
    ensures counted { K.count out.old ≤ K.count out.new }
{
    match end {
        DriveEnd::ReadFault | DriveEnd::WriteFault => status_of(end),
        _ => match write_closing(end, out) {
            Ok(()) => status_of(end),
            Err(Failed) => Status::WriteFault,
        },
    }
}
