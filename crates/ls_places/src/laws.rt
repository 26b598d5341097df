//! Laws of what stands where: each function has an empty body and a law as its contract.

ghost use Rattle.ls_places.specs.Laws.{FoundInRange};

/// The numbers in what is found in a body point to what is there.
pub fn found_is_in_range<N>()
    ensures { FoundInRange N }
{}
