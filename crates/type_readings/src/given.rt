//! What the walk through a definition is given, and what is looked up there.

ghost use Rattle.std.specs.Prelude.{◌≡◌, ℕ, Option};
ghost use Rattle.ls_terms.specs.declared.types.TypeTerm.{TypeTerm};
ghost use Rattle.type_readings.specs.Given as spec;

use ls_ast::{Case, Mark};
use ls_places::Variables;
use ls_sig::{Binder, Sig};
use ls_terms::TypeTerm;

/// What tells the type that a constructor belongs to, by the number of its name.
pub trait CaseTypes {
    ghost case_type: { Self → ℕ → Option TypeTerm };

    fn case_type(&self, name: u32) -> Option<TypeTerm>
        ensures { result ≡ case_type self.now name };
}

/// What the walk is given beside the tree: the signatures of earlier definitions, the types of
/// constructors, the names of the parameters with the mark of each, and the variables.
#[derive(Drop)]
pub struct Given<'a, C> {
    pub sigs: &'a [Sig],
    pub cases: &'a C,
    pub params: &'a [u32],
    pub marks: &'a [Mark],
    pub vars: &'a Variables,
}

impl<C: CaseTypes> Given<'_, C> {
    /// The place of a name: parameters come first, then variables.
    pub fn place(&self, bound: Binder) -> Option<u32>
        requires { spec.fits self.now }
        ensures { result ≡ spec.type_of C.case_type self.now bound }
    {
        match bound {
            Binder::Param(k) => {
                if (k as usize) < self.params.len() {
                    Some(k)
                } else {
                    None
                }
            }
            Binder::Var(k) => {
                if (k as usize) < self.vars.len() {
                    Some(self.params.len() as u32 + k)
                } else {
                    None
                }
            }
            Binder::Nothing => None,
            Binder::Def(_) => None,
            Binder::Case(_, _) => None,
        }
    }

    /// The mark of a parameter's name.
    pub fn mark(&self, k: u32) -> Mark
        ensures { result ≡ spec.mark_at self.now.marks.now k }
    {
        match self.marks.get(k as usize) {
            Some(mark) => *mark,
            None => Mark::Data,
        }
    }

    /// Whether the variable of this number is a signal.
    pub fn is_signal(&self, k: u32) -> bool
        ensures { result ≡ spec.signal_at C.case_type self.now k }
    {
        match self.vars.get(k as usize) {
            Some(variable) => variable.signal,
            None => false,
        }
    }

    /// The type that a case of a condition belongs to.
    pub fn case_type(&self, case: Case) -> Option<TypeTerm>
        ensures { result ≡ spec.type_of_case C.case_type self.now case }
    {
        match case {
            Case::True => Some(TypeTerm::Bool),
            Case::False => Some(TypeTerm::Bool),
            Case::Of(name) => self.cases.case_type(name.0),
        }
    }
}
