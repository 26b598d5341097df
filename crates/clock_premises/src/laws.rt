//! Laws: each function has an empty body and a law as its contract.

ghost use Rattle.clock_premises.specs.Premises.{FilesScoped, GivenByTypes, ScopedByScope};

/// Where the scope of a definition has no fault its arms are those of blocks, its conditions are
/// clock names, and so is what is given at Clock positions.
pub fn clock_names_come_from_scope()
    ensures { ScopedByScope }
{}

/// Where a definition obeys the rules of types something is given at each Clock position of what
/// it names.
pub fn clock_positions_are_given()
    ensures { GivenByTypes }
{}

/// So each definition of an annotated file is as the laws of clocks suppose, where its scope has no
/// fault and its types are judged.
pub fn files_are_scoped()
    ensures { FilesScoped }
{}
