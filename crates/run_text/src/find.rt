//! The next line of a run.
ghost use Rattle.std.specs.Prelude.{◌≡◌, ◌≤◌, ◌<◌, [], IfSome, length};
ghost use Rattle.std.specs.Option.{option_map};
ghost use Rattle.ls_base.specs.Outside.{Rose, WritesFront};
ghost use Rattle.line_io.specs.Line.{NoNewline, ahead, line_of, rest_of};
ghost use Rattle.line_io.specs.Rows.{Begins};
ghost use Rattle.run_text.specs.Progress.{Adds};

use line_io::{LineBuf, Next, RowBuffer};
use ls_base::{Failed, Sink, Source};

/// What was found where the next line was looked for.
#[derive(Clone, Copy, Debug, PartialEq, Eq)]
pub(crate) enum Found {
    Line,
    End,
    LongLine,
    ReadFault,
    WriteFault,
}

/// Gives the next line. Before anything is read, the rows that are held back are written.
pub(crate) fn find_line<S: Source, K: Sink>(
    buffer: &mut LineBuf,
    rows: &mut RowBuffer,
    input: &mut S,
    out: &mut K,
) -> Found
    ensures line { result ≡ Found.Line → IfSome (ahead buffer.old.held (S.left input.old)) (λ bytes. (0 < length bytes) × (buffer.new.line ≡ line_of bytes)) }
    ensures rest { result ≡ Found.Line → ahead buffer.new.held (S.left input.new) ≡ option_map rest_of (ahead buffer.old.held (S.left input.old)) }
    ensures fits { result ≡ Found.Line → length buffer.new.line ≤ 65536 }
    ensures begun { result ≡ Found.Line → Begins (K.written out.old) rows.old (K.written out.new) rows.new }

    ensures end { result ≡ Found.End → IfSome (ahead buffer.old.held (S.left input.old)) (λ bytes. bytes ≡ []) }
    ensures long { result ≡ Found.LongLine → IfSome (ahead buffer.old.held (S.left input.old)) (λ bytes. 65536 < length (line_of bytes)) }
    ensures fault { result ≡ Found.ReadFault → ahead buffer.new.held (S.left input.new) ≡ ahead buffer.old.held (S.left input.old) }
    ensures part { result ≡ Found.ReadFault → NoNewline buffer.new.held × (length buffer.new.held ≤ 65536) }
    ensures written_end { result ≡ Found.End → Adds (K.written out.old) rows.old (K.written out.new) }
    ensures written_long { result ≡ Found.LongLine → Adds (K.written out.old) rows.old (K.written out.new) }
    ensures written_fault { result ≡ Found.ReadFault → Adds (K.written out.old) rows.old (K.written out.new) }

    ensures read_fault { result ≡ Found.ReadFault → Rose (S.count input.old) (S.count input.new) }
    ensures write_fault { result ≡ Found.WriteFault → Rose (K.count out.old) (K.count out.new) }
    ensures front { result ≡ Found.WriteFault → WritesFront (K.written out.old) rows.old (K.written out.new) }
    ensures reads { S.count input.old ≤ S.count input.new }
    ensures writes { K.count out.old ≤ K.count out.new }
{
    if buffer.next_held() {
        return Found::Line;
    }
    if let Err(Failed) = rows.flush(out) {
        return Found::WriteFault;
    }
    match buffer.next_line(input) {
        Next::Line => Found::Line,
        Next::End => Found::End,
        Next::LongLine => Found::LongLine,
        Next::ReadFault => Found::ReadFault,
    }
}
