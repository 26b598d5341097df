//! The text of the condition of a sampling.

ghost use Rattle.std.specs.Prelude.{◌≡◌, slice_get};
ghost use Rattle.std.specs.Option.{option_copied};
ghost use Rattle.clock_text.specs.Texts as spec;

use arrayvec::ArrayVec;
use ls_base::{List, Name, Names};
use ls_terms::TypeTerm;
use text_write::spelled;

/// What spells the clocks of a signature: the names, the constructors of each enumeration by its
/// number, the types of the parameters, and the numbers of those that are clock names.
#[derive(Drop)]
pub struct Spelling<'a> {
    pub names: &'a Names,
    pub constructors: &'a [List<Name>],
    pub params: &'a List<TypeTerm>,
    pub clock_names: &'a List<u32>,
}

/// The text of the clock name that has this place among the clock names.
fn numbered(at: u32) -> ArrayVec<u8, 16>
    ensures { result.items ≡ spec.numbered at }
{
    let mut text = ArrayVec::new();
    text.push(b'c');
    let mut digits = itoa::Buffer::new();
    let _ = text.try_extend_from_slice(digits.format(at).as_bytes());
    text
}

/// The place of a number in a list, and the list's length where it is not there.
fn place_of(m: u32, all: &List<u32>) -> u32
    ensures { result ≡ spec.place_of m all.now 0 }
{
    let list = all.as_slice();
    for (at, x) in list.iter().enumerate() {
        if *x == m {
            return at as u32;
        }
    }
    all.len() as u32
}

/// The text of the clock name of the parameter of this number.
pub fn clock_name(m: u32, by: &Spelling) -> ArrayVec<u8, 16>
    ensures { result.items ≡ spec.clock_name (spec.spelling by.now) m }
{
    numbered(place_of(m, by.clock_names))
}

/// The constructor of this number of an enumeration, and nothing where there is no such.
fn constructor<'a>(e: u32, k: u32, by: &Spelling<'a>) -> &'a [u8]
    ensures { result.now ≡ spec.constructor (spec.spelling by.now) e k }
{
    match by.constructors.get(e as usize) {
        None => b"",
        Some(cases) => match cases.get(k as usize) {
            None => b"",
            Some(name) => spelled(by.names, *name),
        },
    }
}

fn negation(k: u32) -> &'static [u8]
    ensures { result.now ≡ spec.negation k }
{
    if k == 0 { b"not " } else { b"" }
}

/// The enumeration of a type, if it is one.
fn enum_of(ty: Option<&TypeTerm>) -> Option<u32>
    ensures { result ≡ spec.enum_of (option_copied ty.entry) }
{
    match ty {
        None => None,
        Some(ty) => match ty {
            TypeTerm::Enum(e) => Some(*e),
            _ => None,
        },
    }
}

/// The enumeration of the condition of this number; none if it is a bool.
pub fn enum_at(m: u32, by: &Spelling) -> Option<u32>
    ensures { result ≡ spec.enum_at (spec.spelling by.now) m }
{
    enum_of(by.params.get(m as usize))
}

/// What stands before the name of a condition at a case: its constructor, or `not` where it is
/// false.
pub fn before_name<'a>(of: Option<u32>, k: u32, by: &Spelling<'a>) -> &'a [u8]
    ensures { result.now ≡ spec.before_name (spec.spelling by.now) of k }
{
    match of {
        None => negation(k),
        Some(e) => constructor(e, k, by),
    }
}
