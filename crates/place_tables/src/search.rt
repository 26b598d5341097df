//! Looking things up in lists.

ghost use Rattle.std.specs.Prelude.{◌≡◌, ◌++◌, IfOk};
ghost use Rattle.std.specs.Option.{option_copied};
ghost use Rattle.ls_places.specs.Patterns.{has_name as is_among};
ghost use Rattle.ls_places.specs.Places as places;
ghost use Rattle.ls_places.specs.Search as spec;

use ls_base::{List, NoMemory};
use ls_places::Frame;
use std::alloc::Global;

/// The item at a place.
#[tactic(auto, using(crate::proofs::Lists::slice_get_nth))]
pub fn nth<T>(all: &[T], k: usize) -> Option<&T>
    ensures { option_copied result ≡ spec.nth all.now k }
{
    all.get(k)
}

/// Whether a name stands in a list.
pub fn has_name(x: u32, all: &[u32]) -> bool
    ensures { result ≡ is_among x all.now }
{
    for y in all {
        if x == *y {
            return true;
        }
    }
    false
}

/// The arms among what is around a place.
pub fn arms(alloc: Global, place: &[Frame]) -> Result<List<(u32, u32)>, NoMemory>
    ensures { IfOk result (λ r. r ≡ places.arms place.now) }
{
    let mut done = List::new(alloc);
    for frame in place {
        match frame {
            Frame::Reset(_) => {}
            Frame::Arm(m, j) => done.push((*m, *j))?,
        }
    }
    Ok(done)
}

/// Whether the arms `q` are the outermost of `p`.
pub fn starts_with(p: &[(u32, u32)], q: &[(u32, u32)]) -> bool
    ensures { result ≡ spec.starts_with p.now q.now }
{
    let mut rest = p;
    for c in q {
        match rest {
            [] => return false,
            [a, more @ ..] => {
                if a.0 != c.0 || a.1 != c.1 {
                    return false;
                }
                rest = more;
            }
        }
    }
    true
}

/// An equal list of numbers.
pub fn copy_numbers(alloc: Global, all: &[u32]) -> Result<List<u32>, NoMemory>
    ensures { IfOk result (λ r. r ≡ all.now) }
{
    let mut done = List::new(alloc);
    for k in all {
        done.push(*k)?;
    }
    Ok(done)
}
