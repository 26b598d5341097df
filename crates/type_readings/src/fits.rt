//! Lists of demands as they grow.

ghost use Rattle.std.specs.Prelude.{◌≡◌, ◌∷◌, [], ◌++◌, OnOk, IfOk};
ghost use Rattle.ls_sig.specs.Notes.{is_signal};
ghost use Rattle.type_rules.specs.Expressions.{any};

use ls_base::{Boxed, List, NoMemory};
use ls_terms::TypeTerm;
use std::alloc::Global;
use type_rules::Demand;

/// A place, and the scheme that its type is an instance of.
pub type Fit = (u32, TypeTerm);

/// The variable of the schemes of forms.
pub fn any() -> TypeTerm
    ensures { result ≡ any }
{
    TypeTerm::Var(0)
}

/// The scheme of a signal of any data.
pub fn any_signal(alloc: Global) -> Result<TypeTerm, NoMemory>
    ensures { IfOk result (λ r. r ≡ TypeTerm.Signal any) }
{
    Ok(TypeTerm::Signal(Boxed::new(alloc, any())?))
}

/// Whether this is the type of a signal.
pub fn is_signal_type(ty: &TypeTerm) -> bool
    ensures { result ≡ is_signal ty.now }
{
    match ty {
        TypeTerm::Signal(_) => true,
        TypeTerm::Var(_) => false,
        TypeTerm::Int => false,
        TypeTerm::Bool => false,
        TypeTerm::Char => false,
        TypeTerm::Text => false,
        TypeTerm::Unit => false,
        TypeTerm::Enum(_) => false,
        TypeTerm::Tuple(_) => false,
        TypeTerm::Arrow(_, _, _) => false,
    }
}

/// Nothing serves.
pub fn never(out: &mut List<Demand<u32>>) -> Result<(), NoMemory>
    ensures { OnOk result (out.new ≡ out.old ++ Demand.Never ∷ []) }
{
    out.push(Demand::Never)
}

/// One place is an instance of a scheme.
pub fn fits_one(
    alloc: Global,
    a: u32,
    s: TypeTerm,
    out: &mut List<Demand<u32>>,
) -> Result<(), NoMemory>
    ensures { OnOk result (out.new ≡ out.old ++ Demand.Fits ((a, s) ∷ []) ∷ []) }
{
    let mut list = List::new(alloc);
    list.push((a, s))?;
    out.push(Demand::Fits(list))
}

/// Two places are one instance of two schemes.
pub fn fits_two(alloc: Global, a: Fit, b: Fit, out: &mut List<Demand<u32>>) -> Result<(), NoMemory>
    ensures { OnOk result (out.new ≡ out.old ++ Demand.Fits (a ∷ b ∷ []) ∷ []) }
{
    let mut list = List::new(alloc);
    list.push(a)?;
    list.push(b)?;
    out.push(Demand::Fits(list))
}

/// Three places are one instance of three schemes.
pub fn fits_three(
    alloc: Global,
    a: Fit,
    b: Fit,
    c: Fit,
    out: &mut List<Demand<u32>>,
) -> Result<(), NoMemory>
    ensures { OnOk result (out.new ≡ out.old ++ Demand.Fits (a ∷ b ∷ c ∷ []) ∷ []) }
{
    let mut list = List::new(alloc);
    list.push(a)?;
    list.push(b)?;
    list.push(c)?;
    out.push(Demand::Fits(list))
}
