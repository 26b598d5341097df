//! What the walk for variables is told.

ghost use Rattle.std.specs.Prelude.{◌≡◌};
ghost use Rattle.ls_sig.specs.Notes as notes;

use ls_ast::Expr;
use ls_places::{CasePlaces, Signals};
use ls_sig::{Binder, Sig, Use};
use ls_terms::TypeTerm;

/// An expression is a signal where it is the call of a definition that answers one.
#[derive(Drop)]
pub struct CallSignals<'a> {
    pub sigs: &'a [Sig],
}

fn is_signal(ty: &TypeTerm) -> bool
    ensures { result ≡ notes.is_signal ty.now }
{
    matches!(ty, TypeTerm::Signal(_))
}

impl Signals<Use> for CallSignals<'_> {
    ghost use Rattle.type_rules.specs.Definitions.{answers};

    ghost signal = { λ it e. answers it.sigs.now e.note.bound };

    fn is_signal(&self, e: &Expr<Use>) -> bool {
        match e.note.bound {
            Binder::Def(k) => match self.sigs.get(k as usize) {
                Some(sig) => is_signal(&sig.result),
                None => false,
            },
            Binder::Nothing => false,
            Binder::Param(_) => false,
            Binder::Var(_) => false,
            Binder::Case(_, _) => false,
        }
    }
}

/// No constructor has a place: the variables do not depend on them.
#[derive(Drop)]
pub struct NoCases;

impl CasePlaces for NoCases {
    ghost use Rattle.std.specs.Prelude.{None};

    ghost place = { λ it name. None };

    fn place(&self, _name: u32) -> Option<u32> {
        None
    }
}
