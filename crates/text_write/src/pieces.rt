//! The pieces of the texts of signatures: variables, names and parentheses.

ghost use Rattle.std.specs.Prelude.{◌≡◌, slice_get};
ghost use Rattle.text_write.specs.Pieces as spec;

use arrayvec::ArrayVec;
use ls_base::{Name, Names};

/// The text of a variable: a letter, and a number where the letters are used up.
pub fn letter(x: u32) -> ArrayVec<u8, 16>
    ensures { result.items ≡ spec.letter x }
{
    let mut text = ArrayVec::new();
    text.push(b'\'');
    text.push(b'a' + (x % 26) as u8);
    if x >= 26 {
        let mut digits = itoa::Buffer::new();
        let _ = text.try_extend_from_slice(digits.format(x / 26).as_bytes());
    }
    text
}

/// The spelling of a name, and nothing where it has none.
pub fn spelled(names: &Names, name: Name) -> &[u8]
    ensures { result.now ≡ spec.text_or (slice_get names.now name.0) }
{
    match names.spell(name) {
        Some(text) => text.as_bytes(),
        None => b"",
    }
}

/// A parenthesis that opens, where one is wanted.
pub fn opening(wanted: bool) -> &'static [u8]
    ensures { result.now ≡ spec.opening wanted }
{
    if wanted { b"(" } else { b"" }
}

/// A parenthesis that closes, where one is wanted.
pub fn closing(wanted: bool) -> &'static [u8]
    ensures { result.now ≡ spec.closing wanted }
{
    if wanted { b")" } else { b"" }
}
