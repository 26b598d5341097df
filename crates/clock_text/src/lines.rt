//! Clocks, and the lines that tell them.

ghost use Rattle.std.specs.Prelude.{◌≡◌, ◌≤◌, ◌++◌, true, map, slice_get, OnOk, OnErr};
ghost use Rattle.std.specs.Option.{option_map};
ghost use Rattle.ls_base.specs.Outside.{Rose, WritesFront};
ghost use Rattle.text_write.specs.Writes.{Prints};
ghost use Rattle.clock_text.specs.Texts as spec;

use crate::conditions::{Spelling, before_name, clock_name, enum_at};
use ls_ast::Mark;
use ls_base::{Failed, List, Name, Names, Sink};
use ls_sig::Sig;
use ls_terms::ClockTerm;
use text_write::{closing, letter, opening, put, spelled};

/// Writes ` on c0`, ` on not c0` or ` on A(c0)`.
fn print_on<K: Sink>(ok: bool, m: u32, k: u32, by: &Spelling, out: &mut K) -> bool
    ensures { Prints ok result (K.written out.old) (K.written out.new) (K.count out.old) (K.count out.new) (spec.on_text (spec.spelling by.now) m k) }
{
    let of = enum_at(m, by);
    let is_enum = of.is_some();
    let begun = put(ok, b" on ", out);
    let cased = put(begun, before_name(of, k, by), out);
    let opened = put(cased, opening(is_enum), out);
    let named = put(opened, clock_name(m, by).as_slice(), out);
    put(named, closing(is_enum), out)
}

/// Writes a clock.
#[cycle(print)]
fn print_term<K: Sink>(ok: bool, t: &ClockTerm, by: &Spelling, out: &mut K) -> bool
    ensures { Prints ok result (K.written out.old) (K.written out.new) (K.count out.old) (K.count out.new) (spec.shown (spec.spelling by.now) t.now) }
{
    match t {
        ClockTerm::Var(x) => put(ok, letter(*x).as_slice(), out),
        ClockTerm::On(of, m, k) => {
            let printed = print_term(ok, of.get(), by, out);
            print_on(printed, *m, *k, by, out)
        }
        ClockTerm::Pointwise => put(ok, b"pointwise", out),
        ClockTerm::Arrow(all, to) => {
            let opened = put(ok, b"(", out);
            let listed = print_all(opened, all.as_slice(), by, out);
            let whole = print_term(listed, to.get(), by, out);
            put(whole, b")", out)
        }
    }
}

/// Writes clocks, each with an arrow behind it.
#[cycle(print)]
fn print_all<K: Sink>(ok: bool, all: &[ClockTerm], by: &Spelling, out: &mut K) -> bool
    ensures { Prints ok result (K.written out.old) (K.written out.new) (K.count out.old) (K.count out.new) (spec.arrows (map (spec.shown (spec.spelling by.now)) all.now)) }
{
    let mut so_far = ok;
    for t in all {
        let printed = print_term(so_far, t, by, out);
        so_far = put(printed, b" -> ", out);
    }
    so_far
}

/// Whether the parameter of this number is a clock name.
fn is_clock(marks: &[Mark], i: u32) -> bool
    ensures { result ≡ spec.is_clock (slice_get marks.now i) }
{
    match marks.get(i as usize) {
        Some(Mark::Clock) => true,
        _ => false,
    }
}

/// Writes the clock of a parameter, with its clock name before it if it is one.
fn print_param<K: Sink>(
    ok: bool,
    named: bool,
    i: u32,
    t: &ClockTerm,
    by: &Spelling,
    out: &mut K,
) -> bool
    ensures { Prints ok result (K.written out.old) (K.written out.new) (K.count out.old) (K.count out.new) (spec.param_text (spec.spelling by.now) named i t.now) }
{
    if !named {
        let printed = print_term(ok, t, by, out);
        return put(printed, b" -> ", out);
    }
    let opened = put(ok, b"(", out);
    let told = put(opened, clock_name(i, by).as_slice(), out);
    let parted = put(told, b" : ", out);
    let printed = print_term(parted, t, by, out);
    put(printed, b") -> ", out)
}

/// Writes the clocks of parameters.
fn print_params<K: Sink>(
    ok: bool,
    marks: &[Mark],
    all: &List<ClockTerm>,
    by: &Spelling,
    out: &mut K,
) -> bool
    ensures { Prints ok result (K.written out.old) (K.written out.new) (K.count out.old) (K.count out.new) (spec.params_text (spec.spelling by.now) marks.now 0 all.now) }
{
    let mut so_far = ok;
    let list = all.as_slice();
    for (i, t) in list.iter().enumerate() {
        so_far = print_param(so_far, is_clock(marks, i as u32), i as u32, t, by, out);
    }
    so_far
}

/// Writes the name and the clocks of a signature.
fn print_signature<K: Sink>(sig: &Sig, by: &Spelling, out: &mut K) -> bool
    ensures { Prints true result (K.written out.old) (K.written out.new) (K.count out.old) (K.count out.new) (spec.line_by (spec.spelling by.now) sig.now) }
{
    let begun = put(true, b"val ", out);
    let named = put(begun, spelled(by.names, sig.name), out);
    let told = put(named, b" :: ", out);
    let listed = print_params(told, sig.marks.as_slice(), &sig.clocks, by, out);
    print_term(listed, &sig.result_clock, by, out)
}

/// Writes `val f :: CLOCK`, the clock of a definition. The variable of number k is written by
/// letter k mod 26, followed by k div 26 where that is not 0; a clock name by its place among the
/// parameters that are clock names. `constructors` has the constructors of each enumeration, by its
/// number. Takes no memory. An error comes where a write failed; what was written is then a front
/// of the text.
pub fn print_clock<K: Sink>(
    sig: &Sig,
    constructors: &[List<Name>],
    names: &Names,
    out: &mut K,
) -> Result<(), Failed>
    ensures written { OnOk result (K.written out.new ≡ option_map (λ text. text ++ spec.clock_line names.now constructors.now sig.now) (K.written out.old)) }
    ensures front { WritesFront (K.written out.old) (spec.clock_line names.now constructors.now sig.now) (K.written out.new) }
    ensures failed { OnErr result (Rose (K.count out.old) (K.count out.new)) }
    ensures counted { K.count out.old ≤ K.count out.new }
{
    let by = Spelling {
        names,
        constructors,
        params: &sig.params,
        clock_names: &sig.clock_names,
    };
    if print_signature(sig, &by, out) {
        Ok(())
    } else {
        Err(Failed)
    }
}
