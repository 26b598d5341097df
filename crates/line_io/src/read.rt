ghost use Rattle.std.specs.Prelude.{◌≡◌, ℕ, Some, IfSome, IfNone, SomeIff, codes, position};
ghost use Rattle.ls_value.specs.Spelling.{truth_code};
ghost use Rattle.ls_value.specs.declared.leaf.Leaf.{Leaf};
ghost use Rattle.line_io.specs.Fields.{is_named, IsCase, Spells, ReadsAs};

use crate::InputForm;
use crate::form::Reading;
use ls_base::{List, Name, Names};
use ls_value::{Leaf, Shape, read_char, read_int, read_text};

fn is_named(names: &Names, word: &[u8], name: Name) -> bool
    ensures { result ≡ is_named names.now word.now name }
{
    match names.spell(name) {
        Some(spelling) => spelling.as_bytes() == word,
        None => false,
    }
}

/// The place of the first of some names that is spelled so.
fn place_of(cases: &[Name], names: &Names, word: &[u8]) -> Option<usize>
    ensures { result ≡ position (is_named names.now word.now) cases.now }
{
    cases.iter().position(|name| is_named(names, word, *name))
}

/// The place of the constructor that a word names.
fn read_case(form: &InputForm, enumeration: u32, word: &[u8]) -> Option<u32>
    ensures found { IfSome result (λ place. IsCase form.now enumeration place word.now) }
    ensures none { IfNone result ((place : ℕ) → ¬ IsCase form.now enumeration place word.now) }
{
    let cases = form.cases.get(enumeration as usize)?;
    match place_of(cases.as_slice(), &form.names, word) {
        Some(place) => Some(place as u32),
        None => None,
    }
}

fn read_truth(word: &[u8]) -> Option<bool>
    ensures found { IfSome result (λ b. word.now ≡ truth_code b) }
    ensures none { IfNone result ((word.now ≡ codes "true" → ⊥) × (word.now ≡ codes "false" → ⊥)) }
{
    if word == b"true".as_slice() {
        Some(true)
    } else if word == b"false".as_slice() {
        Some(false)
    } else {
        None
    }
}

fn read_unit(word: &[u8]) -> Option<Leaf>
    ensures found { IfSome result (λ leaf. (leaf ≡ Leaf.Unit) × (word.now ≡ codes "()")) }
    ensures none { IfNone result (word.now ≡ codes "()" → ⊥) }
{
    if word == b"()".as_slice() {
        Some(Leaf::Unit)
    } else {
        None
    }
}

/// The leaf of a shape that a word spells.
fn read_word(form: &InputForm, shape: Shape, word: &[u8]) -> Option<Leaf>
    ensures found { IfSome result (λ leaf. Spells form.now shape word.now leaf) }
    ensures none { IfNone result ((leaf : Leaf) → ¬ Spells form.now shape word.now leaf) }
{
    match shape {
        Shape::Int => read_int(word).map(Leaf::Int),
        Shape::Bool => read_truth(word).map(Leaf::Bool),
        Shape::Char => match read_char(word) {
            Some(glyph) => Some(Leaf::Char(glyph)),
            None => None,
        },
        Shape::Text => read_text(word).map(Leaf::Text),
        Shape::Enum(enumeration) => {
            read_case(form, enumeration, word).map(|place| Leaf::Enum(enumeration, place))
        }
        Shape::Unit => read_unit(word),
    }
}

/// What a word reads as where a leaf of a shape may stand.
pub(crate) fn read_field(form: &InputForm, shape: Shape, word: &[u8]) -> Reading
    ensures { ReadsAs form.now shape (Some word.now) result }
{
    if word == b".".as_slice() {
        return Reading::Dot;
    }
    match read_word(form, shape, word) {
        Some(leaf) => Reading::Leaf(leaf),
        None => Reading::Bad,
    }
}
