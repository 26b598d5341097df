//! Each piece is the longest at its place.

ghost use Rattle.std.specs.Prelude.{◌≡◌, ℕ, ◌<◌, ◌≤◌, take, Ok};
ghost use Rattle.ls_lexer.specs.Pieces as spec;
ghost use Rattle.ls_lexer.specs.declared.piece.Kind.{Kind};
ghost use Rattle.ls_lexer.specs.declared.piece.Piece.{Piece};

use ls_base::Line;

/// Maximal munch: the piece that is read at the front of a text is also that of each front of the
/// text that holds it, so no longer front is a blank, a comment or a spelling as a whole.
pub fn longest_piece(line: Line, text: &[char])
    ensures front { (piece : Piece) (n : ℕ) → spec.piece_at line text.now ≡ Ok piece → piece.len ≤ n → 0 < n → spec.piece_at line (take n text.now) ≡ Ok piece }
    ensures longest { (piece : Piece) (n : ℕ) (kind : Kind) → spec.piece_at line text.now ≡ Ok piece → piece.len < n → spec.piece_at line (take n text.now) ≡ Ok (spec.piece kind n) → ⊥ }
{}
