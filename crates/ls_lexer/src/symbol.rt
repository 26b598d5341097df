//! The symbols.

ghost use Rattle.std.specs.Prelude.{◌≡◌};
ghost use Rattle.ls_lexer.specs.Keywords as spec;

use crate::Fixed;

/// The symbol of two characters. `&&` is the same as `&`, and `||` the same as `or`.
pub fn symbol_of_two(first: char, second: char) -> Option<Fixed>
    ensures { result ≡ spec.symbol_of_two first second }
{
    match (first, second) {
        ('<', '>') => Some(Fixed::Differ),
        ('<', '=') => Some(Fixed::LessEq),
        ('>', '=') => Some(Fixed::GreaterEq),
        ('-', '>') => Some(Fixed::Arrow),
        ('&', '&') => Some(Fixed::Ampersand),
        ('|', '|') => Some(Fixed::KwOr),
        _ => None,
    }
}

/// The symbol of one character.
pub fn symbol_of_one(first: char) -> Option<Fixed>
    ensures { result ≡ spec.symbol_of_one first }
{
    match first {
        '(' => Some(Fixed::ParenLeft),
        ')' => Some(Fixed::ParenRight),
        ',' => Some(Fixed::Comma),
        '=' => Some(Fixed::Equal),
        '<' => Some(Fixed::Less),
        '>' => Some(Fixed::Greater),
        '+' => Some(Fixed::Plus),
        '-' => Some(Fixed::Minus),
        '*' => Some(Fixed::Star),
        '/' => Some(Fixed::Slash),
        '&' => Some(Fixed::Ampersand),
        '|' => Some(Fixed::Bar),
        '?' => Some(Fixed::Question),
        _ => None,
    }
}
