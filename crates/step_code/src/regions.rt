//! The regions that are open at a line.

ghost use Rattle.std.specs.Prelude.{◌≡◌, ◌<◌, ◌≤◌, ◌+◌, ◌++◌, ◌∷◌, ◌↔◌, [], length, OnOk, IsTrue};
ghost use Rattle.step_code.specs.Marks.{AreRegions, AllReach, EndsInside};
ghost use Rattle.step_code.specs.Valid as valid;

use crate::Instr;
use crate::push::push;
use ls_base::NoMemory;

/// Takes away the ends that stand before a place.
pub(crate) fn close_before(earlier: &[Instr], ends: &mut Vec<usize>)
    requires { AreRegions earlier.now ends.old.items }
    ensures regions { AreRegions earlier.now ends.new.items }
    ensures reach { AllReach (length earlier.now) ends.new.items }
{
    while let Some(end) = ends.last() {
        if *end >= earlier.len() {
            return;
        }
        ends.pop();
    }
}

/// Whether a region of so many lines after the place ends within those that are open.
pub(crate) fn ends_inside(earlier: &[Instr], ends: &[usize], size: usize) -> bool
    requires regions { AreRegions earlier.now ends.now }
    requires reach { AllReach (length earlier.now) ends.now }
    requires few { size ≤ 4294967295 }
    ensures { result ≡ valid.ends_inside (length earlier.now) size 0 earlier.now }
{
    match ends.last() {
        Some(end) => earlier.len() + size <= *end,
        None => true,
    }
}

/// Opens the region that a line begins.
pub(crate) fn open_region(
    earlier: &[Instr],
    ends: &mut Vec<usize>,
    line: &Instr,
) -> Result<(), NoMemory>
    requires regions { AreRegions earlier.now ends.old.items }
    requires reach { AllReach (length earlier.now) ends.old.items }
    requires inside { EndsInside earlier.now line.now }
    ensures { OnOk result (AreRegions (earlier.now ++ line.now ∷ []) ends.new.items) }
{
    match line {
        Instr::When(_, size) => push(ends, earlier.len() + *size as usize),
        _ => Ok(()),
    }
}
