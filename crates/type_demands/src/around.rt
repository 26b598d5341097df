//! Where equations stand, and the names there.

ghost use Rattle.std.specs.Prelude.{◌≡◌, ◌<◌, ◌^◌, length, IfOk};
ghost use Rattle.type_readings.specs.Given as scene;
ghost use Rattle.type_demands.specs.Walks as walks;
ghost use Rattle.type_rules.specs.Bodies as spec;

use ls_base::{List, NoMemory, NoteCopy};
use ls_sig::Binder;
use std::alloc::Global;
use type_readings::{CaseTypes, Given};
use type_rules::Around;

/// Outside of all arms.
pub fn at_top(alloc: Global) -> Around
    ensures { result ≡ spec.at_top }
{
    Around {
        here: List::new(alloc),
        list: List::new(alloc),
    }
}

/// In the `do` of an arm, which binds names of the list around the block.
pub fn in_do(alloc: Global, m: u32, j: u32, w: &Around) -> Result<Around, NoMemory>
    ensures { IfOk result (λ r. r ≡ spec.in_do m j w.now) }
{
    let mut here = w.here.copy(alloc)?;
    here.push((m, j))?;
    Ok(Around {
        here,
        list: w.list.copy(alloc)?,
    })
}

/// In the `let` of an arm, whose names are local to the arm.
pub fn in_let(alloc: Global, m: u32, j: u32, w: &Around) -> Result<Around, NoMemory>
    ensures { IfOk result (λ r. r ≡ spec.in_let m j w.now) }
{
    let mut here = w.here.copy(alloc)?;
    here.push((m, j))?;
    Ok(Around {
        list: here.copy(alloc)?,
        here,
    })
}

/// The place of a name that the list of equations binds.
pub fn bound_at<C: CaseTypes>(
    alloc: Global,
    x: u32,
    w: &Around,
    given: &Given<C>,
) -> Result<Option<u32>, NoMemory>
    requires { scene.fits given.now }
    ensures { IfOk result (λ r. r ≡ walks.bound_at C.case_type given.now w.now x) }
{
    match given.vars.place_of(alloc, x, w.list.as_slice())? {
        Some(k) => Ok(given.place(Binder::Var(k))),
        None => Ok(None),
    }
}

/// The number of the variable of this name that is in sight: the first of those whose lists have
/// the outermost of these arms around them.
fn in_sight<C: CaseTypes>(
    alloc: Global,
    x: u32,
    here: &[(u32, u32)],
    given: &Given<C>,
) -> Result<Option<u32>, NoMemory>
    ensures { IfOk result (λ r. r ≡ spec.in_sight x here.now given.now.vars.now 0) }
{
    let mut first = given.vars.place_of(alloc, x, &here[..0])?;
    for end in 1..here.len() + 1 {
        let next = given.vars.place_of(alloc, x, &here[..end])?;
        first = earlier(first, next);
    }
    Ok(first)
}

fn earlier(a: Option<u32>, b: Option<u32>) -> Option<u32>
    ensures { result ≡ walks.earlier a b }
{
    match a {
        None => b,
        Some(x) => match b {
            None => a,
            Some(y) => Some(x.min(y)),
        },
    }
}

/// The number of a parameter's name.
fn index_of(x: u32, names: &[u32]) -> Option<u32>
    requires { length names.now < 2 ^ 32 }
    ensures { result ≡ spec.index_of x names.now 0 }
{
    for (k, name) in names.iter().enumerate() {
        if *name == x {
            return Some(k as u32);
        }
    }
    None
}

/// The place of the signal of this name that is in sight.
pub fn signal_type<C: CaseTypes>(
    alloc: Global,
    x: u32,
    w: &Around,
    given: &Given<C>,
) -> Result<Option<u32>, NoMemory>
    requires { scene.fits given.now }
    ensures { IfOk result (λ r. r ≡ walks.signal_type C.case_type given.now w.now x) }
{
    match in_sight(alloc, x, w.here.as_slice(), given)? {
        Some(k) => Ok(given.place(Binder::Var(k))),
        None => match index_of(x, given.params) {
            Some(k) => Ok(given.place(Binder::Param(k))),
            None => Ok(None),
        },
    }
}
