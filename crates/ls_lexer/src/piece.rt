//! The piece at the front of a text.

ghost use Rattle.std.specs.Prelude.{◌≡◌, ◌≤◌, ◌<◌, ◌^◌, ◌+◌, length, IfOk, false, None};
ghost use Rattle.ls_lexer.specs.Pieces as spec;
ghost use Rattle.ls_lexer.specs.Keywords as words;

use crate::scan::{Class, begins_word, closing_len, comment_len, front_len, is_blank, is_digit};
use crate::symbol::{symbol_of_one, symbol_of_two};
use crate::{Fixed, LexFault};
use ls_base::Line;

/// What a piece of a text is.
#[derive(Clone, Copy, Debug, PartialEq, Eq)]
pub enum Kind {
    Blank,
    Comment,
    /// An identifier, a constructor or a keyword.
    Word,
    Number,
    /// A character between quotes.
    Char,
    /// A string between quotes.
    Text,
    /// A symbol, or a lone `_`.
    Symbol(Fixed),
}

/// What the front of a text is, and the number of its characters.
#[derive(Clone, Copy, Debug, PartialEq, Eq)]
pub struct Piece {
    pub kind: Kind,
    pub len: usize,
}

fn piece_of(kind: Kind, len: usize) -> Piece
    ensures { result ≡ spec.piece kind len }
{
    Piece { kind, len }
}

// A lone `_` is a token of its own.
fn word_piece(first: char, more: usize) -> Piece
    requires { more < 2 ^ 63 }
    ensures { result ≡ spec.word_piece first more }
{
    if first == '_' && more == 0 {
        piece_of(Kind::Symbol(Fixed::Underscore), 1)
    } else {
        piece_of(Kind::Word, 1 + more)
    }
}

/// The piece at the front of a text that begins on a line, or the fault there.
pub fn piece_at(line: Line, text: &[char]) -> Result<Piece, LexFault>
    ensures value { result ≡ spec.piece_at line text.now }
    ensures within { IfOk result (λ piece. piece.len ≤ length text.now) }
    ensures some { IfOk result (λ piece. 0 < piece.len) }
{
    let [first, rest @ ..] = text else {
        return Err(LexFault::Bad(line));
    };
    let first = *first;
    if is_blank(first) {
        Ok(piece_of(Kind::Blank, 1))
    } else if begins_word(first) {
        Ok(word_piece(first, front_len(Class::Word, rest)))
    } else if is_digit(first) {
        Ok(piece_of(Kind::Number, 1 + front_len(Class::Digit, rest)))
    } else if first == '\'' {
        quoted(line, Kind::Char, '\'', rest)
    } else if first == '"' {
        quoted(line, Kind::Text, '"', rest)
    } else if begins_comment(text) {
        comment(line, text)
    } else {
        symbol_at(line, text)
    }
}

fn quoted(line: Line, kind: Kind, quote: char, rest: &[char]) -> Result<Piece, LexFault>
    requires { length rest.now < 2 ^ 63 }
    ensures value { result ≡ spec.piece_or (LexFault.Bad line) kind (spec.behind 1 (spec.closing_len quote false rest.now)) }
    ensures within { IfOk result (λ piece. piece.len ≤ 1 + length rest.now) }
    ensures some { IfOk result (λ piece. 0 < piece.len) }
{
    match closing_len(quote, rest) {
        Some(len) => Ok(piece_of(kind, 1 + len)),
        None => Err(LexFault::Bad(line)),
    }
}

fn begins_comment(text: &[char]) -> bool
    ensures { result ≡ spec.begins_comment text.now }
{
    match text {
        [first, second, ..] => *first == '(' && *second == '*',
        _ => false,
    }
}

fn comment(line: Line, text: &[char]) -> Result<Piece, LexFault>
    ensures value { result ≡ spec.piece_or (LexFault.OpenComment line) Kind.Comment (spec.comment_len text.now) }
    ensures within { IfOk result (λ piece. piece.len ≤ length text.now) }
    ensures some { IfOk result (λ piece. 0 < piece.len) }
{
    match comment_len(text) {
        Some(len) => Ok(piece_of(Kind::Comment, len)),
        None => Err(LexFault::OpenComment(line)),
    }
}

// The longest symbol at the front.
fn symbol_at(line: Line, text: &[char]) -> Result<Piece, LexFault>
    ensures value { result ≡ spec.symbol_at line text.now }
    ensures within { IfOk result (λ piece. piece.len ≤ length text.now) }
    ensures some { IfOk result (λ piece. 0 < piece.len) }
{
    match text {
        [first, second, ..] => match symbol_of_two(*first, *second) {
            Some(two) => Ok(piece_of(Kind::Symbol(two), 2)),
            None => one_character(line, *first),
        },
        [first] => one_character(line, *first),
        [] => Err(LexFault::Bad(line)),
    }
}

fn one_character(line: Line, first: char) -> Result<Piece, LexFault>
    ensures value { result ≡ spec.symbol_piece line None (words.symbol_of_one first) }
    ensures within { IfOk result (λ piece. piece.len ≤ 1) }
    ensures some { IfOk result (λ piece. 0 < piece.len) }
{
    match symbol_of_one(first) {
        Some(one) => Ok(piece_of(Kind::Symbol(one), 1)),
        None => Err(LexFault::Bad(line)),
    }
}
