//! How far a comment, a character or string, and a front of one class of characters go.

ghost use Rattle.std.specs.Prelude.{◌≡◌, ◌≤◌, ◌<◌, ◌==◌, length, IfSome, is_some, false};
ghost use Rattle.ls_value.specs.Reading.{escape_value, plain_value};
ghost use Rattle.ls_lexer.specs.Characters as characters;
ghost use Rattle.ls_lexer.specs.Pieces as spec;

/// A class of characters.
#[derive(Clone, Copy, Debug, PartialEq, Eq)]
pub enum Class {
    Word,
    Digit,
}

impl Class {
    fn has(self, c: char) -> bool
        ensures { result ≡ characters.is_in self c }
    {
        match self {
            Class::Word => c == '\'' || unicode_ident::is_xid_continue(c),
            Class::Digit => is_digit(c),
        }
    }
}

/// A space, a tab, a carriage return or a newline.
pub fn is_blank(c: char) -> bool
    ensures { result ≡ characters.is_blank c }
{
    c == ' ' || c == '\t' || c == '\r' || c == '\n'
}

/// An ASCII digit.
pub fn is_digit(c: char) -> bool
    ensures { result ≡ characters.is_digit c }
{
    c >= '0' && c <= '9'
}

/// An ASCII capital letter.
pub fn is_capital(c: char) -> bool
    ensures { result ≡ characters.is_capital c }
{
    c >= 'A' && c <= 'Z'
}

/// What begins a word.
pub fn begins_word(c: char) -> bool
    ensures { result ≡ characters.begins_word c }
{
    c == '_' || unicode_ident::is_xid_start(c)
}

/// The length of the longest front of characters of a class.
pub fn front_len(class: Class, text: &[char]) -> usize
    ensures value { result ≡ characters.front_len (characters.is_in class) text.now }
    ensures within { result ≤ length text.now }
{
    for (i, c) in text.iter().enumerate() {
        if !class.has(*c) {
            return i;
        }
    }
    text.len()
}

/// The number of newlines.
pub fn newlines(text: &[char]) -> usize
    ensures value { result ≡ characters.newlines text.now }
    ensures within { result ≤ length text.now }
{
    text.iter().filter(|c| **c == '\n').count()
}

/// What a character does to the comments that are open.
#[derive(Clone, Copy, Debug, PartialEq, Eq)]
pub enum Turn {
    Opens,
    Closes,
    Passes,
}

fn turn_of(before: char, c: char) -> Turn
    ensures { result ≡ spec.turn_of before c }
{
    if before == '(' && c == '*' {
        Turn::Opens
    } else if before == '*' && c == ')' {
        Turn::Closes
    } else {
        Turn::Passes
    }
}

/// The length of the comment that begins a text that begins with `(*`. None where it is not
/// closed.
pub fn comment_len(text: &[char]) -> Option<usize>
    ensures value { result ≡ spec.comment_len text.now }
    ensures within { IfSome result (λ len. len ≤ length text.now) }
    ensures some { IfSome result (λ len. 0 < len) }
{
    let mut depth: usize = 0;
    let mut before = '\0';
    for (i, c) in text.iter().enumerate() {
        match turn_of(before, *c) {
            Turn::Opens => {
                depth += 1;
                before = '\0';
            }
            Turn::Closes => {
                if depth <= 1 {
                    return Some(i + 1);
                }
                depth -= 1;
                before = '\0';
            }
            Turn::Passes => before = *c,
        }
    }
    None
}

/// What a character is between quotes.
#[derive(Clone, Copy, Debug, PartialEq, Eq)]
pub enum Inside {
    /// A character, or the second half of an escape.
    Plain,
    /// The first half of an escape.
    Backslash,
    /// The quote that closes.
    Quote,
    Wrong,
}

fn is_escape(c: char) -> bool
    ensures { result ≡ is_some (escape_value c) }
{
    c == 'n' || c == 't' || c == '\\' || c == '\'' || c == '"'
}

fn is_plain(quote: char, c: char) -> bool
    ensures { result ≡ is_some (plain_value quote c) }
{
    c >= ' ' && c <= '~' && !(c == '\\' || c == quote)
}

fn inside_of(quote: char, after: bool, c: char) -> Inside
    ensures { result ≡ spec.inside_of quote after c }
{
    if after {
        if is_escape(c) {
            Inside::Plain
        } else {
            Inside::Wrong
        }
    } else if c == quote {
        Inside::Quote
    } else if c == '\\' {
        Inside::Backslash
    } else if is_plain(quote, c) {
        Inside::Plain
    } else {
        Inside::Wrong
    }
}

/// The length of what follows a quote up to the quote that closes. None where it is not closed,
/// or a character may not stand before.
pub fn closing_len(quote: char, text: &[char]) -> Option<usize>
    ensures value { result ≡ spec.closing_len quote false text.now }
    ensures within { IfSome result (λ len. len ≤ length text.now) }
{
    let mut after = false;
    for (i, c) in text.iter().enumerate() {
        match inside_of(quote, after, *c) {
            Inside::Plain => after = false,
            Inside::Backslash => after = true,
            Inside::Quote => return Some(i + 1),
            Inside::Wrong => return None,
        }
    }
    None
}
