//! What notes tell of their expressions.

ghost use Rattle.std.specs.Prelude.{◌≡◌, Bool};
ghost use Rattle.ls_sig.specs.Notes as spec;

use crate::binder::{Note, TypeNote};
use ls_terms::TypeTerm;

/// A note that tells whether the expression that carries it is a signal.
pub trait SignalNote {
    ghost signal: { Self → Bool };

    fn is_signal(&self) -> bool
        ensures { result ≡ signal self.now };
}

fn is_signal_type(ty: &TypeTerm) -> bool
    ensures { result ≡ spec.is_signal ty.now }
{
    match ty {
        TypeTerm::Signal(_) => true,
        TypeTerm::Var(_) => false,
        TypeTerm::Int => false,
        TypeTerm::Bool => false,
        TypeTerm::Char => false,
        TypeTerm::Text => false,
        TypeTerm::Unit => false,
        TypeTerm::Enum(_) => false,
        TypeTerm::Tuple(_) => false,
        TypeTerm::Arrow(_, _, _) => false,
    }
}

impl SignalNote for Note {
    ghost use Rattle.ls_sig.specs.Notes as spec;

    ghost signal = { λ n. spec.is_signal n.ty };

    fn is_signal(&self) -> bool {
        is_signal_type(&self.ty)
    }
}

impl SignalNote for TypeNote {
    ghost use Rattle.ls_sig.specs.Notes as spec;

    ghost signal = { λ n. spec.is_signal n.ty };

    fn is_signal(&self) -> bool {
        is_signal_type(&self.ty)
    }
}
