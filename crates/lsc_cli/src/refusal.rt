//! The lines of refusals are written.
ghost use Rattle.std.specs.Prelude.{◌≡◌, ◌≢◌, ◌≤◌, ◌⊎◌, length};
ghost use Rattle.ls_base.specs.Outside.{Rose};
ghost use Rattle.ls_lexer.specs.declared.fault.LexFault.{LexFault};
ghost use Rattle.step_text.specs.declared.fault.CodeFault.{CodeFault};
ghost use Rattle.lsc_cli.specs.Outcome.{Comes, refusal};
ghost use Rattle.ls_parser.specs.declared.definitions.SyntaxFault.{SyntaxFault};
ghost use Rattle.ls_scope.specs.declared.fault.ScopeFault.{ScopeFault};
ghost use Rattle.type_infer.specs.declared.fault.TypeFault.{TypeFault};
ghost use Rattle.clock_infer.specs.declared.file.ClockFault.{ClockFault};
ghost use Rattle.init_check.specs.declared.file.InitFault.{InitFault};
ghost use Rattle.lsc_cli.specs.Refusals.{at_line, clocks_text, code_text, init_text, lex_text, scope_text, syntax_fault_text, syntax_text, types_text};

use crate::status::Status;
use clock_infer::ClockFault;
use init_check::InitFault;
use ls_base::{Failed, Line, Sink, write_all};
use ls_lexer::LexFault;
use ls_parser::SyntaxFault;
use ls_scope::ScopeFault;
use run_text::write_numbered;
use step_text::CodeFault;
use type_infer::TypeFault;

/// Writes the refusal of a file that is no row of tokens.
pub(crate) fn refuse_tokens<K: Sink>(fault: LexFault, out: &mut K) -> Status
    requires { fault ≢ LexFault.NoMemory }
    ensures outcome { Comes (refusal (lex_text fault)) result (K.written out.old) (K.written out.new) }
    ensures status { (result ≡ Status.Refused) ⊎ (result ≡ Status.WriteFault) }
    ensures write_fault { result ≡ Status.WriteFault → Rose (K.count out.old) (K.count out.new) }
{
    match fault {
        LexFault::NotUtf8(line) => refuse_at(b"refused: not UTF-8 at line ", line, out),
        LexFault::Bad(line) => refuse_at(b"refused: bad character at line ", line, out),
        LexFault::LongText(line) => refuse_at(b"refused: text too long at line ", line, out),
        LexFault::WideInt(line) => refuse_at(b"refused: integer too wide at line ", line, out),
        LexFault::OpenComment(line) => {
            refuse_at(b"refused: comment not closed at line ", line, out)
        }
        LexFault::NoMemory => unreachable!(),
    }
}

/// Writes the refusal of a text that is no step code.
pub(crate) fn refuse_code<K: Sink>(fault: CodeFault, out: &mut K) -> Status
    requires { fault ≢ CodeFault.NoMemory }
    ensures outcome { Comes (refusal (code_text fault)) result (K.written out.old) (K.written out.new) }
    ensures status { (result ≡ Status.Refused) ⊎ (result ≡ Status.WriteFault) }
    ensures write_fault { result ≡ Status.WriteFault → Rose (K.count out.old) (K.count out.new) }
{
    match fault {
        CodeFault::NotCode(line) => refuse_at(b"refused: not code at line ", line, out),
        CodeFault::BadSlot(line) => refuse_at(b"refused: slot at line ", line, out),
        CodeFault::BadOrder(line) => refuse_at(b"refused: order at line ", line, out),
        CodeFault::BadShape(line) => refuse_at(b"refused: shape at line ", line, out),
        CodeFault::NoMemory => unreachable!(),
    }
}

/// Writes the refusal of tokens that are no file.
pub(crate) fn refuse_syntax<K: Sink>(fault: SyntaxFault, out: &mut K) -> Status
    requires { fault ≢ SyntaxFault.NoMemory }
    ensures outcome { Comes (refusal (syntax_fault_text fault)) result (K.written out.old) (K.written out.new) }
    ensures status { (result ≡ Status.Refused) ⊎ (result ≡ Status.WriteFault) }
    ensures write_fault { result ≡ Status.WriteFault → Rose (K.count out.old) (K.count out.new) }
{
    match fault {
        SyntaxFault::Syntax(line) => refuse_at(b"refused: syntax at line ", line, out),
        SyntaxFault::NoMemory => unreachable!(),
    }
}

/// Writes the refusal of a file that breaks the rules of scope.
pub(crate) fn refuse_scope<K: Sink>(fault: ScopeFault, out: &mut K) -> Status
    requires { fault ≢ ScopeFault.NoMemory }
    ensures outcome { Comes (refusal (scope_text fault)) result (K.written out.old) (K.written out.new) }
    ensures status { (result ≡ Status.Refused) ⊎ (result ≡ Status.WriteFault) }
    ensures write_fault { result ≡ Status.WriteFault → Rose (K.count out.old) (K.count out.new) }
{
    match fault {
        ScopeFault::Twice(line) => refuse_at(b"refused: name bound twice at line ", line, out),
        ScopeFault::Unbound(line) => refuse_at(b"refused: name not bound at line ", line, out),
        ScopeFault::NotAllArms(line) => refuse_at(
            b"refused: arms do not cover at line ",
            line,
            out,
        ),
        ScopeFault::Mixed(line) => refuse_at(b"refused: name used in two ways at line ", line, out),
        ScopeFault::NotCombinatorial(line) => {
            refuse_at(b"refused: not combinatorial at line ", line, out)
        }
        ScopeFault::NoMemory => unreachable!(),
    }
}

/// Writes the refusal of a file with a definition that has no types.
pub(crate) fn refuse_types<K: Sink>(fault: TypeFault, out: &mut K) -> Status
    requires { fault ≢ TypeFault.NoMemory }
    ensures outcome { Comes (refusal (types_text fault)) result (K.written out.old) (K.written out.new) }
    ensures status { (result ≡ Status.Refused) ⊎ (result ≡ Status.WriteFault) }
    ensures write_fault { result ≡ Status.WriteFault → Rose (K.count out.old) (K.count out.new) }
{
    match fault {
        TypeFault::IllTyped(line) => refuse_at(b"refused: type at line ", line, out),
        TypeFault::NoMemory => unreachable!(),
    }
}

/// Writes the refusal of a file with a definition that has no clocks.
pub(crate) fn refuse_clocks<K: Sink>(fault: ClockFault, out: &mut K) -> Status
    requires { fault ≢ ClockFault.NoMemory }
    ensures outcome { Comes (refusal (clocks_text fault)) result (K.written out.old) (K.written out.new) }
    ensures status { (result ≡ Status.Refused) ⊎ (result ≡ Status.WriteFault) }
    ensures write_fault { result ≡ Status.WriteFault → Rose (K.count out.old) (K.count out.new) }
{
    match fault {
        ClockFault::IllClocked(line) => refuse_at(b"refused: clock at line ", line, out),
        ClockFault::NoMemory => unreachable!(),
    }
}

/// Writes the refusal of a file with a definition that is not initialised.
pub(crate) fn refuse_init<K: Sink>(fault: InitFault, out: &mut K) -> Status
    requires { fault ≢ InitFault.NoMemory }
    ensures outcome { Comes (refusal (init_text fault)) result (K.written out.old) (K.written out.new) }
    ensures status { (result ≡ Status.Refused) ⊎ (result ≡ Status.WriteFault) }
    ensures write_fault { result ≡ Status.WriteFault → Rose (K.count out.old) (K.count out.new) }
{
    match fault {
        InitFault::Uninitialised(line) => {
            refuse_at(b"refused: initialisation at line ", line, out)
        }
        InitFault::NoMemory => unreachable!(),
    }
}

/// Writes the line of a refusal that names a line of the file.
fn refuse_at<K: Sink>(text: &[u8], line: Line, out: &mut K) -> Status
    requires { length text.now ≤ 40 }
    ensures outcome { Comes (refusal (at_line text.now line)) result (K.written out.old) (K.written out.new) }
    ensures status { (result ≡ Status.Refused) ⊎ (result ≡ Status.WriteFault) }
    ensures write_fault { result ≡ Status.WriteFault → Rose (K.count out.old) (K.count out.new) }
{
    match write_numbered(text, line.0, out) {
        Ok(()) => Status::Refused,
        Err(Failed) => Status::WriteFault,
    }
}

/// Writes the line of a refusal.
pub(crate) fn refuse<K: Sink>(line: &[u8], out: &mut K) -> Status
    ensures outcome { Comes (refusal line.now) result (K.written out.old) (K.written out.new) }
    ensures status { (result ≡ Status.Refused) ⊎ (result ≡ Status.WriteFault) }
    ensures write_fault { result ≡ Status.WriteFault → Rose (K.count out.old) (K.count out.new) }
{
    match write_all(out, line) {
        Ok(()) => Status::Refused,
        Err(Failed) => Status::WriteFault,
    }
}
