//! Type signatures with clocks.

ghost use Rattle.std.specs.Prelude.{◌≡◌, IfOk};
ghost use Rattle.clock_infer.specs.Signatures as spec;
ghost use Rattle.clock_rules.specs.Files as files;

use crate::schemes::add_scheme;
use clock_rules::ClockScheme;
use ls_ast::DefOf;
use ls_base::{List, NoMemory, NoteCopy};
use ls_sig::{Ann, Note, Sig};
use std::alloc::Global;

/// The clock schemes of the `let` definitions.
fn schemes_in(alloc: Global, all: &[DefOf<Note>]) -> Result<List<ClockScheme>, NoMemory>
    ensures { IfOk result (λ r. r ≡ spec.schemes_in all.now) }
{
    let mut done = List::new(alloc);
    for def in all {
        add_scheme(alloc, def, &mut done)?;
    }
    Ok(done)
}

fn with_scheme(alloc: Global, sig: &Sig, scheme: &ClockScheme) -> Result<Sig, NoMemory>
    ensures { IfOk result (λ r. r ≡ files.with_scheme sig.now scheme.now) }
{
    Ok(Sig {
        name: sig.name,
        kind: sig.kind,
        marks: sig.marks.copy(alloc)?,
        params: sig.params.copy(alloc)?,
        result: sig.result.copy(alloc)?,
        clocks: scheme.clocks.copy(alloc)?,
        result_clock: scheme.result.copy(alloc)?,
        clock_names: scheme.names.copy(alloc)?,
    })
}

/// Signatures with the clocks of schemes, one of each.
fn with_each(alloc: Global, schemes: &[ClockScheme], sigs: &[Sig]) -> Result<List<Sig>, NoMemory>
    ensures { IfOk result (λ r. r ≡ spec.with_each schemes.now sigs.now) }
{
    let mut done = List::new(alloc);
    for (k, scheme) in schemes.iter().enumerate() {
        match sigs.get(k) {
            None => return Ok(done),
            Some(sig) => done.push(with_scheme(alloc, sig, scheme)?)?,
        }
    }
    Ok(done)
}

/// The type signatures of a file's definitions with the clock schemes of their annotations:
/// `sigs` has one for each `let`, in order. What stands in only one of the two is left out.
pub fn clock_signatures(alloc: Global, sigs: List<Sig>, file: &Ann) -> Result<List<Sig>, NoMemory>
    ensures { IfOk result (λ r. r ≡ files.with_schemes sigs file.now.defs) }
{
    let schemes = schemes_in(alloc, file.defs.as_slice())?;
    with_each(alloc, schemes.as_slice(), sigs.as_slice())
}
