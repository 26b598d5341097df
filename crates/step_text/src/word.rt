//! What a word spells.

ghost use Rattle.std.specs.Prelude.{◌≡◌, ◌<◌, ◌^◌, ℕ, List, [], ◌∷◌, ◌++◌, ◌==◌, decimal, codes, length, position, IfSome, IsSomeAnd, IfOk, IsTrue, Some, ◌↔◌};
ghost use Rattle.std.specs.List.{list_all};
ghost use Rattle.std.specs.Str.{chars};
ghost use Rattle.ls_lexer.specs.Characters as spec_of;
ghost use Rattle.ls_ops.specs.Signature.{symbol_of};
ghost use Rattle.ls_ops.specs.declared.kinds.Op.{Op};
ghost use Rattle.ls_value.specs.Spelling.{Fits, IsLeaf, code_of, constructor_code};
ghost use Rattle.ls_value.specs.declared.leaf.Leaf.{Leaf};
ghost use Rattle.ls_value.specs.declared.leaf.Shape.{Shape};
ghost use Rattle.step_code.specs.Valid as valid;
ghost use Rattle.step_text.specs.Entries.{keyword_text, shape_text};
ghost use Rattle.step_text.specs.Legal.{IsConstructor, IsShape};
ghost use Rattle.step_text.specs.Nearest as nearest;
ghost use Rattle.step_text.specs.declared.entry.Keyword.{Keyword};

use crate::entry::Keyword;
use ls_base::NoMemory;
use ls_ops::{Op, find_op};
use ls_value::{Leaf, Shape};
use std::alloc::{AllocError, Global};

/// The keyword that a word is.
pub(crate) fn read_keyword(word: &[u8]) -> Option<Keyword>
    ensures found { IfSome result (λ keyword. word.now ≡ keyword_text keyword) }
    ensures back { (keyword : Keyword) → word.now ≡ keyword_text keyword → result ≡ Some keyword }
{
    if word == b"lsc".as_slice() {
        Some(Keyword::Lsc)
    } else if word == b"type".as_slice() {
        Some(Keyword::Type)
    } else if word == b"slots".as_slice() {
        Some(Keyword::Slots)
    } else if word == b"slot".as_slice() {
        Some(Keyword::Slot)
    } else if word == b"in".as_slice() {
        Some(Keyword::In)
    } else if word == b"out".as_slice() {
        Some(Keyword::Out)
    } else if word == b"body".as_slice() {
        Some(Keyword::Body)
    } else if word == b"code".as_slice() {
        Some(Keyword::Code)
    } else if word == b"end".as_slice() {
        Some(Keyword::End)
    } else {
        read_instruction_keyword(word)
    }
}

fn read_instruction_keyword(word: &[u8]) -> Option<Keyword>
    ensures found { IfSome result (λ keyword. word.now ≡ keyword_text keyword) }
    ensures const_back { word.now ≡ codes "const" → result ≡ Some Keyword.Const }
    ensures copy_back { word.now ≡ codes "copy" → result ≡ Some Keyword.Copy }
    ensures op_back { word.now ≡ codes "op" → result ≡ Some Keyword.Op }
    ensures test_back { word.now ≡ codes "test" → result ≡ Some Keyword.Test }
    ensures when_back { word.now ≡ codes "when" → result ≡ Some Keyword.When }
    ensures call_back { word.now ≡ codes "call" → result ≡ Some Keyword.Call }
{
    if word == b"const".as_slice() {
        Some(Keyword::Const)
    } else if word == b"copy".as_slice() {
        Some(Keyword::Copy)
    } else if word == b"op".as_slice() {
        Some(Keyword::Op)
    } else if word == b"test".as_slice() {
        Some(Keyword::Test)
    } else if word == b"when".as_slice() {
        Some(Keyword::When)
    } else if word == b"call".as_slice() {
        Some(Keyword::Call)
    } else {
        None
    }
}

/// A number in decimal, without leading zeros.
pub(crate) fn read_number(word: &[u8]) -> Option<u32>
    ensures found { IfSome result (λ n. (word.now ≡ decimal n) × (n < 2 ^ 32)) }
    ensures back { (n : ℕ) → n < 2 ^ 32 → word.now ≡ decimal n → result ≡ Some n }
{
    let number = nearest_number(word)?;
    if is_decimal(word, number) {
        Some(number)
    } else {
        None
    }
}

fn is_decimal(word: &[u8], number: u32) -> bool
    ensures { IsTrue result ↔ (word.now ≡ decimal number) }
{
    itoa::Buffer::new().format(number).as_bytes() == word
}

// The only number that the word can be the decimal of.
fn nearest_number(word: &[u8]) -> Option<u32>
    ensures { (n : ℕ) → n < 2 ^ 32 → word.now ≡ decimal n → result ≡ Some n }
{
    match std::str::from_utf8(word) {
        Ok(text) => text.parse::<u32>().ok(),
        Err(_) => None,
    }
}

/// The operator of a symbol.
pub(crate) fn read_operator(word: &[u8]) -> Option<Op>
    ensures found { IfSome result (λ op. word.now ≡ symbol_of op) }
    ensures back { (op : Op) → word.now ≡ symbol_of op → result ≡ Some op }
{
    match std::str::from_utf8(word) {
        Ok(text) => find_op(text),
        Err(_) => None,
    }
}

/// A shape by its name.
pub(crate) fn read_shape(word: &[u8]) -> Option<Shape>
    ensures found { IfSome result (λ shape. (word.now ≡ shape_text shape) × IsShape shape) }
    ensures back { (shape : Shape) → IsShape shape → word.now ≡ shape_text shape → result ≡ Some shape }
{
    if word == b"int".as_slice() {
        Some(Shape::Int)
    } else if word == b"bool".as_slice() {
        Some(Shape::Bool)
    } else if word == b"char".as_slice() {
        Some(Shape::Char)
    } else if word == b"string".as_slice() {
        Some(Shape::Text)
    } else if word == b"unit".as_slice() {
        Some(Shape::Unit)
    } else {
        read_enumeration(word)
    }
}

fn read_enumeration(word: &[u8]) -> Option<Shape>
    ensures found { IfSome result (λ shape. (word.now ≡ shape_text shape) × IsShape shape) }
    ensures back { (t : ℕ) → t < 2 ^ 32 → word.now ≡ shape_text (Shape.Enum t) → result ≡ Some (Shape.Enum t) }
{
    if word.len() < 4 || &word[..4] != b"enum".as_slice() {
        return None;
    }
    Some(Shape::Enum(read_number(&word[4..])?))
}

/// A leaf by its one spelling.
pub(crate) fn read_leaf(word: &[u8]) -> Option<Leaf>
    ensures found { IfSome result (λ leaf. (word.now ≡ code_of leaf) × IsLeaf leaf) }
    ensures back { (leaf : Leaf) → IsLeaf leaf → word.now ≡ code_of leaf → result ≡ Some leaf }
{
    ls_value::read_leaf(word, nearest_shape(word)?).ok()
}

// The only shape of the leaf that the word can be the spelling of.
fn nearest_shape(word: &[u8]) -> Option<Shape>
    ensures { (leaf : Leaf) → IsLeaf leaf → word.now ≡ code_of leaf → IsSomeAnd result (Fits leaf) }
{
    if word.is_empty() {
        return None;
    }
    if word[0] == b'#' {
        return Some(Shape::Enum(nearest_enumeration(&word[1..])?));
    }
    Some(shape_by_first(word[0]))
}

// The shape that goes with the first byte of a leaf which is no constructor.
fn shape_by_first(first: u8) -> Shape
    ensures { result ≡ nearest.shape_by_first first }
{
    if first == b'\'' {
        Shape::Char
    } else if first == b'"' {
        Shape::Text
    } else if first == b't' || first == b'f' {
        Shape::Bool
    } else if first == b'(' {
        Shape::Unit
    } else {
        Shape::Int
    }
}

// The number before the first `.`.
fn nearest_enumeration(word: &[u8]) -> Option<u32>
    ensures { (t : ℕ) (rest : List ℕ) → t < 2 ^ 32 → word.now ≡ decimal t ++ 46 ∷ rest → result ≡ Some t }
{
    match dot_place(word) {
        Some(end) => read_number(&word[..end]),
        None => None,
    }
}

fn dot_place(word: &[u8]) -> Option<usize>
    ensures place { result ≡ position (λ b. b == 46) word.now }
    ensures within { IfSome result (λ end. end < length word.now) }
{
    word.iter().position(|byte| *byte == b'.')
}

/// Whether a word is spelled as a constructor: a capital letter of ASCII, and then what goes on with
/// an identifier, or `'`.
pub(crate) fn is_constructor(alloc: Global, word: &[u8]) -> Result<bool, NoMemory>
    ensures { IfOk result (λ is. IsTrue is ↔ IsConstructor word.now) }
{
    match std::str::from_utf8(word) {
        Ok(text) => is_constructor_text(alloc, text),
        Err(_) => Ok(false),
    }
}

fn is_constructor_text(alloc: Global, text: &str) -> Result<bool, NoMemory>
    ensures { IfOk result (λ is. is ≡ valid.is_constructor text.now) }
{
    let characters = characters_of(alloc, text)?;
    Ok(are_of_constructor(characters.as_slice()))
}

fn characters_of(alloc: Global, text: &str) -> Result<Vec<char>, AllocError>
    ensures value { IfOk result (λ characters. characters.items ≡ chars text.now) }
{
    text.chars().collect(alloc)
}

fn are_of_constructor(characters: &[char]) -> bool
    ensures { result ≡ valid.is_constructor_text characters.now }
{
    if characters.is_empty() {
        return false;
    }
    is_capital(characters[0]) && all_continue(&characters[1..])
}

fn all_continue(characters: &[char]) -> bool
    ensures { result ≡ list_all spec_of.continues_word characters.now }
{
    characters.iter().all(|c| continues_word(*c))
}

fn is_capital(c: char) -> bool
    ensures { result ≡ spec_of.is_capital c }
{
    c >= 'A' && c <= 'Z'
}

fn continues_word(c: char) -> bool
    ensures { result ≡ spec_of.continues_word c }
{
    c == '\'' || unicode_ident::is_xid_continue(c)
}
