//! The words of a line.

ghost use Rattle.std.specs.Prelude.{◌≡◌, ◌+◌, ◌<◌, ◌≤◌, ◌^◌, ℕ, List, [], ◌∷◌, length, take, drop, true, decimal, IfSome, IsSome, IfNone, IsTrue, Some, ◌↔◌};
ghost use Rattle.ls_ops.specs.Signature.{symbol_of};
ghost use Rattle.ls_ops.specs.declared.kinds.Op.{Op};
ghost use Rattle.ls_value.specs.Spelling.{IsLeaf, code_of};
ghost use Rattle.ls_value.specs.declared.leaf.Leaf.{Leaf};
ghost use Rattle.ls_value.specs.declared.leaf.Shape.{Shape};
ghost use Rattle.step_text.specs.Entries.{shape_text};
ghost use Rattle.step_text.specs.Legal.{IsShape};
ghost use Rattle.step_text.specs.Words as spec;

use crate::word::{read_leaf, read_number, read_operator, read_shape};
use ls_ops::Op;
use ls_value::{Leaf, Shape};
use std::marker::Model;

/// Where a byte of a line stands.
#[derive(Clone, Copy)]
enum Place {
    /// At the front of a word.
    Front,
    /// In a word, outside a token.
    Bare,
    /// In a token between quotes of this byte.
    Quoted(u8),
    /// Behind a `\` in such a token.
    Escaped(u8),
}

/// Whether a byte ends the word.
fn ends(place: Place, byte: u8) -> bool
    ensures { result ≡ spec.ends place byte }
{
    match place {
        Place::Front | Place::Bare => byte == b' ',
        Place::Quoted(_) | Place::Escaped(_) => false,
    }
}

fn opened(byte: u8) -> Place
    ensures { result ≡ spec.opened byte }
{
    if byte == b'\'' || byte == b'"' {
        Place::Quoted(byte)
    } else {
        Place::Bare
    }
}

fn quoted_on(quote: u8, byte: u8) -> Place
    ensures { result ≡ spec.quoted_on quote byte }
{
    if byte == b'\\' {
        Place::Escaped(quote)
    } else if byte == quote {
        Place::Bare
    } else {
        Place::Quoted(quote)
    }
}

/// The place behind a byte that does not end the word.
fn behind(place: Place, byte: u8) -> Place
    ensures { result ≡ spec.behind place byte }
{
    match place {
        Place::Front => opened(byte),
        Place::Bare => Place::Bare,
        Place::Quoted(quote) => quoted_on(quote, byte),
        Place::Escaped(quote) => Place::Quoted(quote),
    }
}

/// The number of bytes of the first word of a text.
fn word_len(text: &[u8]) -> usize
    ensures within { result ≤ length text.now }
    ensures more { result < length text.now → spec.words_of text.now ≡ take result text.now ∷ spec.words_of (drop (result + 1) text.now) }
    ensures last { result ≡ length text.now → spec.words_of text.now ≡ text.now ∷ [] }
{
    let mut place = Place::Front;
    for i in 0..text.len() {
        if ends(place, text[i]) {
            return i;
        }
        place = behind(place, text[i]);
    }
    text.len()
}

/// The first word of a text.
fn first_word(text: &[u8]) -> &[u8]
    ensures { (words : List (List ℕ)) × (spec.words_of text.now ≡ result.now ∷ words) }
{
    let end = word_len(text);
    if end < text.len() { &text[..end] } else { text }
}

/// The words of a line that are left.
#[derive(Drop)]
pub(crate) struct Words<'a> {
    /// The text of the words, which are one at least.
    rest: Option<&'a [u8]>,
}

impl<'a> Model for Words<'a> {
    ghost use Rattle.std.specs.Prelude.{ℕ, List};
    ghost use Rattle.step_text.specs.Words.{words_left};

    ghost Value = { List (List ℕ) };

    ghost view = { λ w. words_left w.rest };
}

impl<'a> Words<'a> {
    /// The words of a line.
    pub(crate) fn new(line: &'a [u8]) -> Words<'a>
        ensures { result ≡ spec.words_of line.now }
    {
        Words { rest: Some(line) }
    }

    /// Takes the next word.
    pub(crate) fn next(&mut self) -> Option<&'a [u8]>
        ensures none { IfNone result ((self.old ≡ []) × (self.new ≡ [])) }
        ensures word { IfSome result (λ word. self.old ≡ word.now ∷ self.new) }
    {
        let text = self.rest?;
        let end = word_len(text);
        self.rest = if end < text.len() {
            Some(&text[end + 1..])
        } else {
            None
        };
        Some(&text[..end])
    }

    /// Whether the next word is this one.
    pub(crate) fn begin_with(&self, word: &[u8]) -> bool
        ensures { IsTrue result ↔ ((words : List (List ℕ)) × (self.now ≡ word.now ∷ words)) }
    {
        match self.rest {
            Some(text) => first_word(text) == word,
            None => false,
        }
    }

    /// Takes the next word, and tells whether it is this one.
    pub(crate) fn takes(&mut self, word: &[u8]) -> bool
        ensures taken { IsTrue result → self.old ≡ word.now ∷ self.new }
        ensures back { (words : List (List ℕ)) → self.old ≡ word.now ∷ words → (result ≡ true) × (self.new ≡ words) }
    {
        match self.next() {
            Some(found) => found == word,
            None => false,
        }
    }

    /// Takes the next word, which must be a number.
    pub(crate) fn number(&mut self) -> Option<u32>
        ensures found { IfSome result (λ n. (self.old ≡ decimal n ∷ self.new) × (n < 2 ^ 32)) }
        ensures back { (n : ℕ) (words : List (List ℕ)) → n < 2 ^ 32 → self.old ≡ decimal n ∷ words → (result ≡ Some n) × (self.new ≡ words) }
    {
        read_number(self.next()?)
    }

    /// Takes the next word, which must be a leaf.
    pub(crate) fn leaf(&mut self) -> Option<Leaf>
        ensures found { IfSome result (λ leaf. (self.old ≡ code_of leaf ∷ self.new) × IsLeaf leaf) }
        ensures back { (leaf : Leaf) (words : List (List ℕ)) → IsLeaf leaf → self.old ≡ code_of leaf ∷ words → (result ≡ Some leaf) × (self.new ≡ words) }
    {
        read_leaf(self.next()?)
    }

    /// Takes the next word, which must be a shape.
    pub(crate) fn shape(&mut self) -> Option<Shape>
        ensures found { IfSome result (λ shape. (self.old ≡ shape_text shape ∷ self.new) × IsShape shape) }
        ensures back { (shape : Shape) (words : List (List ℕ)) → IsShape shape → self.old ≡ shape_text shape ∷ words → (result ≡ Some shape) × (self.new ≡ words) }
    {
        read_shape(self.next()?)
    }

    /// Takes the next word, which must be the symbol of an operator.
    pub(crate) fn operator(&mut self) -> Option<Op>
        ensures found { IfSome result (λ op. self.old ≡ symbol_of op ∷ self.new) }
        ensures back { (op : Op) (words : List (List ℕ)) → self.old ≡ symbol_of op ∷ words → (result ≡ Some op) × (self.new ≡ words) }
    {
        read_operator(self.next()?)
    }

    /// Some where no word is left.
    pub(crate) fn over(&self) -> Option<()>
        ensures { IsSome result ↔ (self.now ≡ []) }
    {
        match self.rest {
            Some(_) => None,
            None => Some(()),
        }
    }
}
