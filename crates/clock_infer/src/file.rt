//! The clocks of a file.

ghost use Rattle.std.specs.Prelude.{◌≡◌, [], map, IfOk, IfErr, IfSome, IfNone};
ghost use Rattle.clock_infer.specs.Filed as spec;
ghost use Rattle.clock_rules.specs.Files.{FirstIllClocked, Judged, scheme_of};
ghost use Rattle.clock_rules.specs.Fresh.{erase};
ghost use Rattle.ls_places.specs.Definitions.{case_place};
ghost use Rattle.ls_sig.specs.declared.binder.Note.{Note};
ghost use Rattle.ls_sig.specs.declared.binder.TypeNote.{TypeNote};
ghost use Rattle.tree_notes.specs.Noted.{in_definition};

use crate::definition::{Clocked, clock_definition};
use crate::schemes::{add_scheme, schemes_of};
use case_tables::Cases;
use clock_rules::ClockScheme;
use ls_ast::{DefOf, FileOf};
use ls_base::{Line, List, NoMemory, NoteCopy};
use ls_places::CasePlaces;
use ls_sig::{Ann, Env, Note, TypeNote, Typed};
use std::alloc::Global;
use thiserror::Error;

/// Why a file has no clocks.
#[derive(Clone, Copy, Debug, PartialEq, Eq, Error)]
pub enum ClockFault {
    /// No clocks obey the rules in the definition that begins on this line, the first such one.
    #[error("a definition is not well clocked")]
    IllClocked(Line),
    /// A block of memory was refused, or variables would have too great numbers.
    #[error("out of memory")]
    NoMemory,
}

impl From<NoMemory> for ClockFault {
    ghost use Rattle.std.specs.Prelude.{◌≡◌};
    ghost use Rattle.clock_infer.specs.declared.file.ClockFault.{ClockFault};

    ghost from_gives = { λ error fault. fault ≡ ClockFault.NoMemory };

    fn from(_error: NoMemory) -> ClockFault {
        ClockFault::NoMemory
    }
}

/// The definitions so far, and the schemes of all before the next one.
#[derive(Drop)]
struct SoFar {
    defs: List<DefOf<Note>>,
    schemes: List<ClockScheme>,
}

/// A definition with its clocks; none where no annotation obeys the rules.
fn clock_one<C: CasePlaces>(
    alloc: Global,
    cases: &C,
    schemes: &[ClockScheme],
    def: &DefOf<TypeNote>,
) -> Result<Option<DefOf<Note>>, NoMemory>
    ensures clocked { IfOk result (λ r. IfSome r (λ n. spec.IsClockedAs (C.place cases.now) schemes.now def.now n)) }
    ensures ill { IfOk result (λ r. IfNone r (spec.IsIll (C.place cases.now) schemes.now def.now)) }
{
    match def {
        DefOf::Cases {
            line,
            name,
            cases: all,
        } => Ok(Some(DefOf::Cases {
            line: *line,
            name: *name,
            cases: all.copy(alloc)?,
        })),
        DefOf::Let {
            line,
            node,
            name,
            params,
            marks,
            notes,
            body,
        } => match clock_definition(alloc, schemes, cases, params, marks, notes.as_slice(), body)? {
            None => Ok(None),
            Some(clocked) => {
                let Clocked { notes, body } = clocked;
                Ok(Some(DefOf::Let {
                    line: *line,
                    node: *node,
                    name: *name,
                    params: params.copy(alloc)?,
                    marks: marks.copy(alloc)?,
                    notes,
                    body,
                }))
            }
        },
    }
}

fn line_of(def: &DefOf<TypeNote>) -> Line
    ensures { result ≡ spec.line_of def.now }
{
    match def {
        DefOf::Cases { line, .. } => *line,
        DefOf::Let { line, .. } => *line,
    }
}

/// The definitions with their clocks, behind others with these schemes.
fn clock_all<C: CasePlaces>(
    alloc: Global,
    cases: &C,
    schemes: List<ClockScheme>,
    all: &[DefOf<TypeNote>],
) -> Result<List<DefOf<Note>>, ClockFault>
    ensures clocked { IfOk result (λ r. spec.AreClockedAs (C.place cases.now) schemes all.now r) }
    ensures ill { IfErr result (λ f. spec.AtLine f (FirstIllClocked (C.place cases.now) schemes all.now)) }
{
    let mut so_far = SoFar {
        defs: List::new(alloc),
        schemes,
    };
    for def in all {
        match clock_one(alloc, cases, so_far.schemes.as_slice(), def)? {
            None => return Err(ClockFault::IllClocked(line_of(def))),
            Some(clocked) => {
                add_scheme(alloc, &clocked, &mut so_far.schemes)?;
                so_far.defs.push(clocked)?;
            }
        }
    }
    let SoFar { defs, .. } = so_far;
    Ok(defs)
}

/// The clocks of a file behind an environment: each definition is annotated principally, over the
/// schemes of those before it, or the first that none obeys is told.
pub fn infer_clocks_after(alloc: Global, env: &Env, file: &Typed) -> Result<Ann, ClockFault>
    ensures same { IfOk result (λ ann. map (λ d. in_definition Note TypeNote erase d) ann.defs ≡ file.now.defs) }
    ensures names { IfOk result (λ ann. ann.names ≡ file.now.names) }
    ensures principal { IfOk result (λ ann. Judged (case_place file.now.defs) (map scheme_of env.now.sigs) ann.defs) }
    ensures refused { IfErr result (λ f. spec.AtLine f (FirstIllClocked (case_place file.now.defs) (map scheme_of env.now.sigs) file.now.defs)) }
{
    let cases = Cases::new(alloc, file.defs.as_slice())?;
    let schemes = schemes_of(alloc, env.sigs.as_slice())?;
    let names = file.names.copy(alloc)?;
    match clock_all(alloc, &cases, schemes, file.defs.as_slice()) {
        Ok(defs) => Ok(FileOf { defs, names }),
        Err(fault) => Err(fault),
    }
}

/// The clocks of a file behind nothing.
pub fn infer_clocks(alloc: Global, file: &Typed) -> Result<Ann, ClockFault>
    ensures same { IfOk result (λ ann. map (λ d. in_definition Note TypeNote erase d) ann.defs ≡ file.now.defs) }
    ensures names { IfOk result (λ ann. ann.names ≡ file.now.names) }
    ensures principal { IfOk result (λ ann. Judged (case_place file.now.defs) [] ann.defs) }
    ensures refused { IfErr result (λ f. spec.AtLine f (FirstIllClocked (case_place file.now.defs) [] file.now.defs)) }
{
    let env = Env::empty(alloc)?;
    infer_clocks_after(alloc, &env, file)
}
