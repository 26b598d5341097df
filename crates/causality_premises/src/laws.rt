//! Laws: each function has an empty body and a law as its contract.

ghost use Rattle.causality_premises.specs.Premises.{FilesRead, ReadsOfScope, ScopedByRanges};

/// Where what stands in a body names what is there, all that the model reads is a row of the body.
pub fn reads_are_rows()
    ensures { ScopedByRanges }
{}

/// What stands in the body of a resolved definition names what is there, but for its clocks, of
/// which that is supposed.
pub fn resolved_reads_are_rows()
    ensures { ReadsOfScope }
{}

/// And so in each definition of an annotated file.
pub fn files_read_rows()
    ensures { FilesRead }
{}
