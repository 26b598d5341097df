ghost use Rattle.std.specs.Prelude.{◌≡◌, ℕ, ◌<◌, ◌≢◌, IsTrue, List, [], ◌∷◌, ◌++◌, length, SomeIff, IfSome, IfNone, MatchOption, Some, if◌then◌else◌, not, ◌&&◌, ◌==◌};
ghost use Rattle.ls_value.specs.Reading.{IsIntText, int_value, characters_of, IsToken, escape_value, plain_value};
ghost use Rattle.ls_value.specs.Character.{is_character};

use crate::{Glyph, Text};
use arrayvec::ArrayVec;

/// The int of a field: an optional `-` and one or more digits, leading zeros allowed. None where
/// the bytes are none, or the int is not within 64 bits.
pub fn read_int(bytes: &[u8]) -> Option<i64>
    ensures { SomeIff result (IsIntText bytes.now) (int_value bytes.now) }
{
    if !bytes.is_empty() && bytes[0] == b'+' {
        return None;
    }
    match std::str::from_utf8(bytes) {
        Ok(text) => text.parse::<i64>().ok(),
        Err(_) => None,
    }
}

/// The character of a token: between single quotes a character, or an escape.
pub fn read_char(bytes: &[u8]) -> Option<Glyph>
    ensures found { IfSome result (λ g. IsToken 39 (g ∷ []) bytes.now) }
    ensures none { IfNone result ((c : ℕ) → ¬ IsToken 39 (c ∷ []) bytes.now) }
{
    match read_token(b'\'', bytes) {
        Some(text) => single(text.bytes()),
        None => None,
    }
}

/// The string of a token: between double quotes at most 63 characters or escapes.
pub fn read_text(bytes: &[u8]) -> Option<Text>
    ensures found { IfSome result (λ t. IsToken 34 t bytes.now) }
    ensures none { IfNone result ((cs : List ℕ) → IsToken 34 cs bytes.now → 63 < length cs) }
{
    read_token(b'"', bytes)
}

fn single(bytes: &[u8]) -> Option<Glyph>
    ensures { MatchOption result ((c : ℕ) → bytes.now ≡ c ∷ [] → IsTrue (is_character c) → ⊥) (λ g. bytes.now ≡ g ∷ []) }
{
    if bytes.len() == 1 {
        Glyph::new(bytes[0])
    } else {
        None
    }
}

fn read_token(quote: u8, bytes: &[u8]) -> Option<Text>
    ensures found { IfSome result (λ t. IsToken quote t bytes.now) }
    ensures none { IfNone result ((cs : List ℕ) → IsToken quote cs bytes.now → 63 < length cs) }
{
    let body = between(quote, bytes)?;
    read_body(quote, body)
}

fn between(quote: u8, bytes: &[u8]) -> Option<&[u8]>
    ensures { MatchOption result ((body : List ℕ) → bytes.now ≢ quote ∷ body ++ quote ∷ []) (λ body. bytes.now ≡ quote ∷ body.now ++ quote ∷ []) }
{
    match bytes {
        [first, body @ .., last] if *first == quote && *last == quote => Some(body),
        _ => None,
    }
}

fn begins_escape(after: bool, byte: u8) -> bool
    ensures { result ≡ (not after && (byte == 92)) }
{
    !after && byte == b'\\'
}

fn character(quote: u8, after: bool, byte: u8) -> Option<u8>
    ensures { result ≡ (if after then escape_value byte else plain_value quote byte) }
{
    if after {
        escaped_byte(byte)
    } else {
        plain_byte(quote, byte)
    }
}

fn escaped_byte(byte: u8) -> Option<u8>
    ensures { result ≡ escape_value byte }
{
    match byte {
        b'n' => Some(b'\n'),
        b't' => Some(b'\t'),
        b'\\' | b'\'' | b'"' => Some(byte),
        _ => None,
    }
}

fn plain_byte(quote: u8, byte: u8) -> Option<u8>
    ensures { result ≡ plain_value quote byte }
{
    if byte >= 32 && byte <= 126 && !(byte == b'\\' || byte == quote) {
        Some(byte)
    } else {
        None
    }
}

fn read_body(quote: u8, body: &[u8]) -> Option<Text>
    ensures found { IfSome result (λ t. characters_of quote body.now ≡ Some t) }
    ensures none { IfNone result ((cs : List ℕ) → characters_of quote body.now ≡ Some cs → 63 < length cs) }
{
    let mut characters = ArrayVec::<u8, 63>::new();
    let mut after = false;
    for byte in body {
        if begins_escape(after, *byte) {
            after = true;
        } else {
            let character = character(quote, after, *byte)?;
            if characters.is_full() {
                return None;
            }
            characters.push(character);
            after = false;
        }
    }
    if after {
        None
    } else {
        Text::new(characters.as_slice())
    }
}
