//! What the walk through a body is told by its caller.

ghost use Rattle.std.specs.Prelude.{◌≡◌, Bool, ℕ, Option};
ghost use Rattle.ls_ast.specs.declared.tree.Expr.{Expr};

use ls_ast::Expr;
use ls_sig::SignalNote;

/// What tells whether an expression is a signal, so that the names of an equation are.
pub trait Signals<N> {
    ghost signal: { Self → Expr N → Bool };

    fn is_signal(&self, e: &Expr<N>) -> bool
        ensures { result ≡ signal self.now e.now };
}

/// The notes tell it.
#[derive(Clone, Copy, Debug)]
pub struct NoteSignals;

impl<N: SignalNote> Signals<N> for NoteSignals {
    ghost signal = { λ it e. N.signal e.note };

    fn is_signal(&self, e: &Expr<N>) -> bool {
        e.note.is_signal()
    }
}

/// What tells the place of a constructor in its enumeration, by the number of its name.
pub trait CasePlaces {
    ghost place: { Self → ℕ → Option ℕ };

    fn place(&self, name: u32) -> Option<u32>
        ensures { result ≡ place self.now name };
}
