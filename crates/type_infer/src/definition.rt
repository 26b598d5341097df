//! The types of one definition, after Damas and Milner (1982).

ghost use Rattle.std.specs.Prelude.{◌≡◌, ◌+◌, None, IfOk, IsErrOf};
ghost use Rattle.type_infer.specs.Inference as spec;
ghost use Rattle.type_rules.specs.Definitions as rules;
ghost use Rattle.type_rules.specs.Files.{placed};
ghost use Rattle.type_rules.specs.Laws.{asks_in, AreFunctionsIn};

use crate::signals::{CallSignals, NoCases};
use crate::trees::{Annotated, Numbered, annotate, number};
use ls_ast::{BodyOf, Mark, Pat};
use ls_base::{List, NoMemory};
use ls_places::{Variables, variables};
use ls_sig::{Sig, Use};
use std::alloc::Global;
use type_demands::{demands_of, name_marks, param_names};
use type_readings::{CaseTypes, Given};
use type_rules::Demand;
use type_solve::{SolveFault, solve};

/// The greatest number of nodes of a type.
const LIMIT: u32 = 4096;

/// A definition whose names are resolved.
#[derive(Drop)]
pub struct Let<'a> {
    pub params: &'a List<Pat>,
    pub marks: &'a List<Mark>,
    pub notes: &'a List<Use>,
    pub body: &'a BodyOf<Use>,
}

/// A definition with numbered places, and what it asks of their types.
#[derive(Drop)]
struct Asked {
    numbered: Numbered,
    demands: List<Demand<u32>>,
}

fn variables_of(alloc: Global, sigs: &[Sig], def: &Let<'_>) -> Result<Variables, NoMemory>
    ensures { IfOk result (λ r. r ≡ rules.variables sigs.now (λ x. None) (spec.definition def.now)) }
{
    let first = def.params.len() as u32;
    variables(alloc, first, &NoCases, &CallSignals { sigs }, def.body)
}

/// The number of the first place that is no name.
fn first_place(names: usize, vars: usize) -> Result<u32, NoMemory>
    ensures { IfOk result (λ r. r ≡ names + vars) }
{
    match names.checked_add(vars) {
        Some(first) => match u32::try_from(first) {
            Ok(first) => Ok(first),
            Err(_) => Err(NoMemory),
        },
        None => Err(NoMemory),
    }
}

fn ask<C: CaseTypes>(
    alloc: Global,
    sigs: &[Sig],
    cases: &C,
    def: &Let<'_>,
) -> Result<Asked, NoMemory>
    ensures numbered { IfOk result (λ r. spec.with_trees def.now r.numbered.notes r.numbered.body ≡ placed (C.case_type cases.now) sigs.now (spec.definition def.now)) }
    ensures demands { IfOk result (λ r. r.demands ≡ asks_in (C.case_type cases.now) sigs.now (spec.definition def.now)) }
{
    let names = param_names(alloc, def.params.as_slice())?;
    let marks = name_marks(alloc, def.params.as_slice(), def.marks.as_slice())?;
    let vars = variables_of(alloc, sigs, def)?;
    let first = first_place(names.len(), vars.len())?;
    let numbered = number(alloc, first, def.notes.as_slice(), def.body)?;
    let given = Given {
        sigs,
        cases,
        params: names.as_slice(),
        marks: marks.as_slice(),
        vars: &vars,
    };
    let demands = demands_of(
        alloc,
        def.params,
        def.marks.as_slice(),
        numbered.notes.as_slice(),
        &numbered.body,
        &given,
    )?;
    Ok(Asked { numbered, demands })
}

/// The principal annotation of a definition, after the signatures of those before it: a type for
/// each place, of at most 4,096 nodes. It is `Unsolved` where no such annotation obeys the rules.
pub fn infer_definition<C: CaseTypes>(
    alloc: Global,
    sigs: &[Sig],
    cases: &C,
    def: &Let<'_>,
) -> Result<Annotated, SolveFault>
    ensures typed { AreFunctionsIn (C.case_type cases.now) sigs.now (spec.definition def.now) → IfOk result (λ r. spec.IsPrincipalOf (C.case_type cases.now) 4096 sigs.now (spec.definition def.now) (spec.with_trees def.now r.notes r.body)) }
    ensures ill { IsErrOf result SolveFault.Unsolved → spec.NoneObeys (C.case_type cases.now) 4096 sigs.now (spec.definition def.now) }
{
    let asked = match ask(alloc, sigs, cases, def) {
        Ok(asked) => asked,
        Err(_) => return Err(SolveFault::NoMemory),
    };
    match solve(alloc, &asked.demands, LIMIT) {
        Ok(solution) => match annotate(alloc, &solution, &asked.numbered) {
            Ok(done) => Ok(done),
            Err(_) => Err(SolveFault::NoMemory),
        },
        Err(fault) => Err(fault),
    }
}
