//! The keywords.

ghost use Rattle.std.specs.Prelude.{◌≡◌};
ghost use Rattle.ls_lexer.specs.Keywords.{keyword_of};
ghost use Rattle.ls_lexer.specs.Letters as spec;

use crate::Fixed;
use ls_ops::Op;

/// What a keyword is: a token of its own, or the operator that is written before its operands.
#[derive(Clone, Copy, Debug, PartialEq, Eq)]
pub enum Keyword {
    Fixed(Fixed),
    Prefix(Op),
}

/// The keyword that a word is, if it is one. A word is compared with the keywords of its first
/// letter alone, which are five at most.
pub fn find_keyword(word: &str) -> Option<Keyword>
    ensures { result ≡ keyword_of word.now }
{
    by_letter(word)
}

fn by_letter(word: &str) -> Option<Keyword>
    ensures { result ≡ spec.by_letter word.now }
{
    match word.as_bytes() {
        [first, ..] => keyword_from(*first, word),
        [] => None,
    }
}

/// The keywords by their first letters, each with what it is.
macro_rules! keywords {
    (@is Fixed $token:ident) => { Keyword::Fixed(Fixed::$token) };
    (@is Prefix $op:ident) => { Keyword::Prefix(Op::$op) };
    ($first:expr, $word:expr; $($letter:literal: $($spelling:literal $kind:ident $is:ident),*;)*) => {
        match $first {
            $($letter => keyword_in(&[$(($spelling, keywords!(@is $kind $is))),*], $word),)*
            _ => None,
        }
    };
}

fn keyword_from(first: u8, word: &str) -> Option<Keyword>
    ensures { result ≡ spec.keyword_from spec.letters first word.now }
{
    keywords! {
        first, word;
        b'a': "and" Fixed KwAnd, "automaton" Fixed KwAutomaton;
        b'c': "clock" Fixed KwClock, "continue" Fixed KwContinue;
        b'd': "do" Fixed KwDo, "done" Fixed KwDone;
        b'e': "else" Fixed KwElse, "emit" Fixed KwEmit, "end" Fixed KwEnd,
             "every" Fixed KwEvery;
        b'f': "false" Fixed KwFalse, "fby" Fixed KwFby;
        b'i': "if" Fixed KwIf, "in" Fixed KwIn, "int_of_char" Prefix IntOfChar,
             "is_digit" Prefix IsDigit, "is_letter" Prefix IsLetter;
        b'l': "last" Fixed KwLast, "let" Fixed KwLet;
        b'm': "match" Fixed KwMatch, "max" Prefix Max, "merge" Fixed KwMerge, "min" Prefix Min,
             "mod" Fixed KwMod;
        b'n': "node" Fixed KwNode, "not" Fixed KwNot;
        b'o': "odd" Prefix Odd, "or" Fixed KwOr;
        b'p': "pre" Fixed KwPre, "present" Fixed KwPresent;
        b'r': "rec" Fixed KwRec, "reset" Fixed KwReset, "run" Fixed KwRun;
        b's': "sign" Prefix Sign;
        b't': "then" Fixed KwThen, "true" Fixed KwTrue, "type" Fixed KwType;
        b'u': "unless" Fixed KwUnless, "until" Fixed KwUntil;
        b'w': "when" Fixed KwWhen, "whenot" Fixed KwWhenot, "where" Fixed KwWhere,
             "with" Fixed KwWith;
        b'x': "xor" Fixed KwXor;
    }
}

fn keyword_in(rows: &[(&'static str, Keyword)], word: &str) -> Option<Keyword>
    ensures { result ≡ spec.keyword_in (spec.entries rows.now) word.now }
{
    first_in(rows, word)
}

fn first_in(rows: &[(&'static str, Keyword)], word: &str) -> Option<Keyword>
    ensures { result ≡ spec.first_in rows.now word.now }
{
    rows.iter().find(|row| row.0 == word).map(|row| row.1)
}
