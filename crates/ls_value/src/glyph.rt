ghost use Rattle.std.specs.Prelude.{◌≡◌, ◌↔◌, IsSome, IfSome};
ghost use Rattle.ls_value.specs.Character.{IsCharacter};

use std::marker::Model;

/// A character of the language: one of ASCII 32 to 126, a newline or a tab.
#[derive(Clone, Copy, Debug, PartialEq, Eq)]
pub struct Glyph {
    byte: u8,
}

impl Model for Glyph {
    ghost use Rattle.std.specs.Prelude.{ℕ};
    ghost use Rattle.ls_value.specs.Character.{is_character};
    ghost use Rattle.std.specs.Bool.{IsTrue};

    ghost Value = { ℕ };

    ghost view = { λ g. g.byte };

    ghost invariant = { λ g. IsTrue (is_character g.byte) };

    ghost inverse = { λ n. record { byte = n } };
}

impl Glyph {
    /// None exactly where the byte is no character.
    pub fn new(byte: u8) -> Option<Glyph>
        ensures valid { IsSome result ↔ IsCharacter byte }
        ensures value { IfSome result (λ g. g ≡ byte) }
    {
        if byte >= 32 && byte <= 126 || byte == b'\n' || byte == b'\t' {
            Some(Glyph { byte })
        } else {
            None
        }
    }

    pub fn byte(&self) -> u8
        ensures value { result ≡ self.now }
        ensures character { IsCharacter result }
    {
        self.byte
    }
}
