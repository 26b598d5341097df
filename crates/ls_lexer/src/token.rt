//! The tokens.

use ls_base::{Line, List, Name, Names};
use ls_ops::Op;
use ls_value::{Glyph, Text};

/// The tokens of a file in order, each with the line that it begins on, and the spellings of its
/// names: `false` and `true` first, then the identifiers and constructors in order of first
/// appearance.
#[derive(Drop)]
pub struct Tokens {
    pub list: List<(Line, Token)>,
    pub names: Names,
}

#[derive(Clone, Copy, Debug)]
pub enum Token {
    /// An identifier.
    Id(Name),
    /// A constructor: a word that begins with a capital letter.
    Cons(Name),
    Int(i64),
    Char(Glyph),
    Text(Text),
    /// The keyword of an operator that is written before its operands, as `min`.
    Prefix(Op),
    Fixed(Fixed),
}

/// The other keywords, the symbols, and a lone `_`.
#[derive(Clone, Copy, Debug, PartialEq, Eq)]
pub enum Fixed {
    KwAnd,
    KwAutomaton,
    KwClock,
    KwContinue,
    KwDo,
    KwDone,
    KwElse,
    KwEmit,
    KwEnd,
    KwEvery,
    KwFalse,
    KwFby,
    KwIf,
    KwIn,
    KwLast,
    KwLet,
    KwMatch,
    KwMerge,
    KwMod,
    KwNode,
    KwNot,
    KwOr,
    KwPre,
    KwPresent,
    KwRec,
    KwReset,
    KwRun,
    KwThen,
    KwTrue,
    KwType,
    KwUnless,
    KwUntil,
    KwWhen,
    KwWhenot,
    KwWhere,
    KwWith,
    KwXor,
    ParenLeft,
    ParenRight,
    Comma,
    Equal,
    Differ,
    Less,
    LessEq,
    Greater,
    GreaterEq,
    Plus,
    Minus,
    Star,
    Slash,
    Arrow,
    Ampersand,
    Bar,
    Question,
    Underscore,
}
