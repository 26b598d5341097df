//! The line that closes a run.
ghost use Rattle.std.specs.Prelude.{◌≡◌, ◌≤◌, ◌++◌, codes, decimal, length, OnOk, OnErr, IfSome, IsSome};
ghost use Rattle.ls_base.specs.Outside.{Rose, WritesFront};
ghost use Rattle.run_text.specs.Progress.{Adds, stop_of};
ghost use Rattle.run_text.specs.RunText.{alarm_text, closing_of};

use crate::lines::DriveEnd;
use crate::machine::AlarmKind;
use arrayvec::ArrayVec;
use ls_base::{Failed, Sink, write_all};

/// A text, a number and a newline.
fn numbered(text: &[u8], number: u32) -> ArrayVec<u8, 64>
    requires { length text.now ≤ 40 }
    ensures { result.items ≡ text.now ++ decimal number ++ codes "\n" }
{
    let mut digits = itoa::Buffer::new();
    let mut line = ArrayVec::new();
    let _ = line.try_extend_from_slice(text);
    let _ = line.try_extend_from_slice(digits.format(number).as_bytes());
    line.push(b'\n');
    line
}

/// Writes a line that is a text of at most 40 bytes and a number.
pub fn write_numbered<K: Sink>(text: &[u8], number: u32, out: &mut K) -> Result<(), Failed>
    requires { length text.now ≤ 40 }
    ensures written { OnOk result (Adds (K.written out.old) (text.now ++ decimal number ++ codes "\n") (K.written out.new)) }
    ensures front { WritesFront (K.written out.old) (text.now ++ decimal number ++ codes "\n") (K.written out.new) }
    ensures failed { OnErr result (Rose (K.count out.old) (K.count out.new)) }
    ensures counted { K.count out.old ≤ K.count out.new }
{
    write_all(out, numbered(text, number).as_slice())
}

/// What the line of an alarm begins with.
fn alarm_words(kind: AlarmKind) -> &'static [u8]
    ensures text { result.now ≡ alarm_text kind }
    ensures short { length result.now ≤ 40 }
{
    match kind {
        AlarmKind::Division => b"division by zero at instant ",
    }
}

/// Writes the line that closes a run which no fault ended: that of a bad line or of an alarm; at
/// every other end there is none.
pub fn write_closing<K: Sink>(end: DriveEnd, out: &mut K) -> Result<(), Failed>
    requires { IsSome (stop_of end) }
    ensures written { OnOk result (IfSome (stop_of end) (λ stop. Adds (K.written out.old) (closing_of stop) (K.written out.new))) }
    ensures front { OnErr result (IfSome (stop_of end) (λ stop. WritesFront (K.written out.old) (closing_of stop) (K.written out.new))) }
    ensures failed { OnErr result (Rose (K.count out.old) (K.count out.new)) }
    ensures counted { K.count out.old ≤ K.count out.new }
{
    match end {
        DriveEnd::BadLine(line) => write_numbered(b"bad line ", line, out),
        DriveEnd::Alarm(kind, instant) => write_numbered(alarm_words(kind), instant, out),
        _ => Ok(()),
    }
}
