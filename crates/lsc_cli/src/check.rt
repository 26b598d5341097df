//! A file is checked.
ghost use Rattle.std.specs.Prelude.{◌≡◌, ◌≢◌, ◌≤◌, ◌⊎◌, ◌++◌, codes, length, true};
ghost use Rattle.clock_text.specs.Texts.{clock_line};
ghost use Rattle.ls_base.specs.Outside.{Rose};
ghost use Rattle.ls_front.specs.Front.{IsInside};
ghost use Rattle.ls_front.specs.declared.fault.FrontFault.{FrontFault};
ghost use Rattle.text_write.specs.Writes.{Prints};
ghost use Rattle.type_schemes.specs.Texts.{type_line};
ghost use Rattle.lsc_cli.specs.Check.{IsCheck, all_lines, check_lines, front_text, signature_lines};
ghost use Rattle.lsc_cli.specs.Outcome.{Comes, done, refusal};
ghost use Rattle.lsc_cli.specs.Status.{is_about_file};

use crate::refusal::{
    refuse_clocks, refuse_init, refuse_scope, refuse_syntax, refuse_tokens, refuse_types,
};
use crate::status::Status;
use clock_text::print_clock;
use ls_base::{List, Name, Names, Sink, write_all};
use ls_front::{Checked, FrontFault, front};
use ls_sig::Sig;
use std::alloc::Global;
use type_schemes::print_type;

/// Checks a file of this text: writes the type and the clock of each definition, or the refusal of
/// the first judgement that it fails.
pub(crate) fn check_text<K: Sink>(alloc: Global, text: &[u8], out: &mut K) -> Status
    requires { length text.now ≤ 1048576 }
    ensures judged { is_about_file result ≡ true → IsCheck text.now result (K.written out.old) (K.written out.new) }
    ensures status { (result ≡ Status.Done) ⊎ (result ≡ Status.Refused) ⊎ (result ≡ Status.WriteFault) ⊎ (result ≡ Status.NoMemory) }
    ensures write_fault { result ≡ Status.WriteFault → Rose (K.count out.old) (K.count out.new) }
    ensures untouched { result ≡ Status.NoMemory → out.new ≡ out.old }
{
    match front(alloc, text) {
        Ok(checked) => write_checked(&checked, out),
        Err(FrontFault::NoMemory) => Status::NoMemory,
        Err(fault) => refuse_file(fault, out),
    }
}

/// Writes the refusal of a file that a judgement refuses.
fn refuse_file<K: Sink>(fault: FrontFault, out: &mut K) -> Status
    requires some { fault ≢ FrontFault.NoMemory }
    requires inside { IsInside fault }
    ensures outcome { Comes (refusal (front_text fault)) result (K.written out.old) (K.written out.new) }
    ensures status { (result ≡ Status.Refused) ⊎ (result ≡ Status.WriteFault) }
    ensures write_fault { result ≡ Status.WriteFault → Rose (K.count out.old) (K.count out.new) }
{
    match fault {
        FrontFault::Lex(fault) => refuse_tokens(fault, out),
        FrontFault::Syntax(fault) => refuse_syntax(fault, out),
        FrontFault::Scope(fault) => refuse_scope(fault, out),
        FrontFault::Types(fault) => refuse_types(fault, out),
        FrontFault::Clocks(fault) => refuse_clocks(fault, out),
        FrontFault::Init(fault) => refuse_init(fault, out),
        FrontFault::NoMemory => unreachable!(),
    }
}

/// Writes the types and clocks of a file that is accepted.
fn write_checked<K: Sink>(checked: &Checked, out: &mut K) -> Status
    ensures outcome { Comes (done (check_lines checked.now)) result (K.written out.old) (K.written out.new) }
    ensures status { (result ≡ Status.Done) ⊎ (result ≡ Status.WriteFault) }
    ensures write_fault { result ≡ Status.WriteFault → Rose (K.count out.old) (K.count out.new) }
{
    let sigs = checked.sigs.as_slice();
    let enums = checked.enums.as_slice();
    let constructors = checked.constructors.as_slice();
    if write_signatures(sigs, enums, constructors, &checked.ann.names, out) {
        Status::Done
    } else {
        Status::WriteFault
    }
}

/// Writes the lines of each signature. Whether no write failed is answered.
fn write_signatures<K: Sink>(
    sigs: &[Sig],
    enums: &[Name],
    constructors: &[List<Name>],
    names: &Names,
    out: &mut K,
) -> bool
    ensures { Prints true result (K.written out.old) (K.written out.new) (K.count out.old) (K.count out.new) (all_lines names.now enums.now constructors.now sigs.now) }
{
    let mut fine = true;
    for sig in sigs {
        fine = write_signature(fine, sig, enums, constructors, names, out);
    }
    fine
}

/// Writes the lines of a signature, unless a write failed before.
fn write_signature<K: Sink>(
    fine: bool,
    sig: &Sig,
    enums: &[Name],
    constructors: &[List<Name>],
    names: &Names,
    out: &mut K,
) -> bool
    ensures { Prints fine result (K.written out.old) (K.written out.new) (K.count out.old) (K.count out.new) (signature_lines names.now enums.now constructors.now sig.now) }
{
    let typed = write_type(fine, sig, enums, names, out);
    write_clock(typed, sig, constructors, names, out)
}

/// Writes the line of a signature's type, unless a write failed before.
fn write_type<K: Sink>(fine: bool, sig: &Sig, enums: &[Name], names: &Names, out: &mut K) -> bool
    ensures { Prints fine result (K.written out.old) (K.written out.new) (K.count out.old) (K.count out.new) (type_line names.now enums.now sig.now ++ codes "\n") }
{
    let told = tell_type(fine, sig, enums, names, out);
    end_line(told, out)
}

/// Writes the line of a signature's clock, unless a write failed before.
fn write_clock<K: Sink>(
    fine: bool,
    sig: &Sig,
    constructors: &[List<Name>],
    names: &Names,
    out: &mut K,
) -> bool
    ensures { Prints fine result (K.written out.old) (K.written out.new) (K.count out.old) (K.count out.new) (clock_line names.now constructors.now sig.now ++ codes "\n") }
{
    let told = tell_clock(fine, sig, constructors, names, out);
    end_line(told, out)
}

/// Writes the name and the type of a signature, unless a write failed before.
fn tell_type<K: Sink>(fine: bool, sig: &Sig, enums: &[Name], names: &Names, out: &mut K) -> bool
    ensures { Prints fine result (K.written out.old) (K.written out.new) (K.count out.old) (K.count out.new) (type_line names.now enums.now sig.now) }
{
    if !fine {
        return false;
    }
    match print_type(sig, enums, names, out) {
        Ok(()) => true,
        Err(_) => false,
    }
}

/// Writes the name and the clock of a signature, unless a write failed before.
fn tell_clock<K: Sink>(
    fine: bool,
    sig: &Sig,
    constructors: &[List<Name>],
    names: &Names,
    out: &mut K,
) -> bool
    ensures { Prints fine result (K.written out.old) (K.written out.new) (K.count out.old) (K.count out.new) (clock_line names.now constructors.now sig.now) }
{
    if !fine {
        return false;
    }
    match print_clock(sig, constructors, names, out) {
        Ok(()) => true,
        Err(_) => false,
    }
}

/// Writes the end of a line, unless a write failed before.
fn end_line<K: Sink>(fine: bool, out: &mut K) -> bool
    ensures { Prints fine result (K.written out.old) (K.written out.new) (K.count out.old) (K.count out.new) (codes "\n") }
{
    if !fine {
        return false;
    }
    match write_all(out, b"\n") {
        Ok(()) => true,
        Err(_) => false,
    }
}
