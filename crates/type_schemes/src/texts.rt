//! Types as text.

ghost use Rattle.std.specs.Prelude.{◌≡◌, ◌≤◌, ◌++◌, true, map, slice_get, OnOk, OnErr};
ghost use Rattle.std.specs.Option.{option_map};
ghost use Rattle.ls_base.specs.Outside.{Rose, WritesFront};
ghost use Rattle.type_schemes.specs.Texts as spec;

use arrayvec::ArrayVec;
use ls_base::{Failed, Name, Names, Sink, write_all};
use ls_sig::Sig;
use ls_terms::{Kind, TypeTerm};

/// Writes a text, unless a write failed before. Whether none failed is answered.
fn put<K: Sink>(ok: bool, text: &[u8], out: &mut K) -> bool
    ensures { spec.Prints ok result (K.written out.old) (K.written out.new) (K.count out.old) (K.count out.new) text.now }
{
    if !ok {
        return false;
    }
    match write_all(out, text) {
        Ok(()) => true,
        Err(_) => false,
    }
}

/// A variable's text: a letter, and a number where the letters are used up.
fn letter(x: u32) -> ArrayVec<u8, 16>
    ensures { result.items ≡ spec.letter x }
{
    let mut text = ArrayVec::new();
    text.push(b'\'');
    text.push(b'a' + (x % 26) as u8);
    if x >= 26 {
        let mut digits = itoa::Buffer::new();
        let _ = text.try_extend_from_slice(digits.format(x / 26).as_bytes());
    }
    text
}

/// The spelling of a name, and nothing where it has none.
fn spelled(names: &Names, name: Name) -> &[u8]
    ensures { result.now ≡ spec.text_or (slice_get names.now name.0) }
{
    match names.spell(name) {
        Some(text) => text.as_bytes(),
        None => b"",
    }
}

/// The name of an enumeration, and nothing where there is no such.
fn enum_name<'a>(enums: &[Name], names: &'a Names, e: u32) -> &'a [u8]
    ensures { result.now ≡ spec.enum_text names.now enums.now e }
{
    match enums.get(e as usize) {
        Some(name) => spelled(names, *name),
        None => b"",
    }
}

fn arrow(kind: Kind) -> &'static [u8]
    ensures { result.now ≡ spec.arrow kind }
{
    match kind {
        Kind::Comb => b" -> ",
        Kind::Seq => b" => ",
    }
}

/// The arrow behind a parameter: the last one tells the kind.
fn arrow_after(kind: Kind, last: bool) -> &'static [u8]
    ensures { result.now ≡ spec.arrow_after kind last }
{
    if last { arrow(kind) } else { b" -> " }
}

/// What stands before a part of a tuple.
fn joint(at: usize) -> &'static [u8]
    ensures { result.now ≡ spec.joint at }
{
    if at == 0 { b"" } else { b" * " }
}

/// A parenthesis, where one is wanted.
fn opening(wanted: bool) -> &'static [u8]
    ensures { result.now ≡ spec.opening wanted }
{
    if wanted { b"(" } else { b"" }
}

fn closing(wanted: bool) -> &'static [u8]
    ensures { result.now ≡ spec.closing wanted }
{
    if wanted { b")" } else { b"" }
}

/// What spells the names in types: the names, and the name of each enumeration by its number.
#[derive(Drop)]
pub struct Spelling<'a> {
    pub names: &'a Names,
    pub enums: &'a [Name],
}

/// Writes a type; `nested` says that it stands in a tuple or before `sig`.
#[cycle(print)]
fn print_term<K: Sink>(ok: bool, t: &TypeTerm, nested: bool, by: &Spelling, out: &mut K) -> bool
    ensures { spec.Prints ok result (K.written out.old) (K.written out.new) (K.count out.old) (K.count out.new) (spec.text_of nested (spec.shown by.now.names.now by.now.enums.now t.now)) }
{
    match t {
        TypeTerm::Var(x) => put(ok, letter(*x).as_slice(), out),
        TypeTerm::Int => put(ok, b"int", out),
        TypeTerm::Bool => put(ok, b"bool", out),
        TypeTerm::Char => put(ok, b"char", out),
        TypeTerm::Text => put(ok, b"string", out),
        TypeTerm::Unit => put(ok, b"unit", out),
        TypeTerm::Enum(e) => put(ok, enum_name(by.enums, by.names, *e), out),
        TypeTerm::Tuple(all) => {
            let opened = put(ok, opening(nested), out);
            let listed = print_parts(opened, all.as_slice(), by, out);
            put(listed, closing(nested), out)
        }
        TypeTerm::Arrow(kind, all, to) => {
            let opened = put(ok, b"(", out);
            let listed = print_params(opened, *kind, all.as_slice(), by, out);
            let whole = print_term(listed, to.get(), false, by, out);
            put(whole, b")", out)
        }
        TypeTerm::Signal(of) => {
            let printed = print_term(ok, of.get(), true, by, out);
            put(printed, b" sig", out)
        }
    }
}

#[cycle(print)]
fn print_parts<K: Sink>(ok: bool, all: &[TypeTerm], by: &Spelling, out: &mut K) -> bool
    ensures { spec.Prints ok result (K.written out.old) (K.written out.new) (K.count out.old) (K.count out.new) (spec.parts_from 0 (map (spec.shown by.now.names.now by.now.enums.now) all.now)) }
{
    let mut so_far = ok;
    for (at, part) in all.iter().enumerate() {
        let joined = put(so_far, joint(at), out);
        so_far = print_term(joined, part, true, by, out);
    }
    so_far
}

/// Writes parameters, each with an arrow behind it.
#[cycle(print)]
fn print_params<K: Sink>(ok: bool, kind: Kind, all: &[TypeTerm], by: &Spelling, out: &mut K) -> bool
    ensures { spec.Prints ok result (K.written out.old) (K.written out.new) (K.count out.old) (K.count out.new) (spec.arrows kind (map (spec.shown by.now.names.now by.now.enums.now) all.now)) }
{
    let mut so_far = ok;
    for (at, part) in all.iter().enumerate() {
        let named = print_term(so_far, part, false, by, out);
        so_far = put(named, arrow_after(kind, at + 1 == all.len()), out);
    }
    so_far
}

/// Writes the name and the types of a signature.
fn print_signature<K: Sink>(sig: &Sig, by: &Spelling, out: &mut K) -> bool
    ensures { spec.Prints true result (K.written out.old) (K.written out.new) (K.count out.old) (K.count out.new) (spec.type_line by.now.names.now by.now.enums.now sig.now) }
{
    let begun = put(true, b"val ", out);
    let named = put(begun, spelled(by.names, sig.name), out);
    let told = put(named, b" : ", out);
    let listed = print_params(told, sig.kind, sig.params.as_slice(), by, out);
    print_term(listed, &sig.result, false, by, out)
}

/// Writes `val f : TYPE`, the type of a definition. The variable of number k is written by letter
/// k mod 26, followed by k div 26 where that is not 0; in the signature of a definition they are
/// numbered by first appearance. `enums` has the name of each enumeration, by its number. Takes no
/// memory. An error comes where a write failed; what was written is then a front of the text.
pub fn print_type<K: Sink>(
    sig: &Sig,
    enums: &[Name],
    names: &Names,
    out: &mut K,
) -> Result<(), Failed>
    ensures written { OnOk result (K.written out.new ≡ option_map (λ text. text ++ spec.type_line names.now enums.now sig.now) (K.written out.old)) }
    ensures front { WritesFront (K.written out.old) (spec.type_line names.now enums.now sig.now) (K.written out.new) }
    ensures failed { OnErr result (Rose (K.count out.old) (K.count out.new)) }
    ensures counted { K.count out.old ≤ K.count out.new }
{
    let by = Spelling { names, enums };
    if print_signature(sig, &by, out) {
        Ok(())
    } else {
        Err(Failed)
    }
}
