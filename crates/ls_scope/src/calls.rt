//! Resolution of the names of a file.

ghost use Rattle.std.specs.Prelude.{◌≡◌, None, false, is_some, IfOk, IfErr};
ghost use Rattle.std.specs.List.{list_any};
ghost use Rattle.ls_sig.specs.Environment.{empty};
ghost use Rattle.scope_rules.specs.After as spec;
ghost use Rattle.scope_rules.specs.File as file;
ghost use Rattle.scope_rules.specs.Faults as faults;
ghost use Rattle.ls_scope.specs.Answer as answer;

use crate::after::{known_after, names_after};
use crate::definition::{Judged, judge};
use crate::fault::ScopeFault;
use crate::known::Known;
use crate::twice::repeated;
use ls_ast::{DefOf, File, Pat};
use ls_base::{Line, List, Name, Names, NoMemory, NoteCopy};
use ls_sig::{Binder, Env, Resolved, Use};
use std::alloc::Global;

fn numbers_of(alloc: Global, all: &[Name]) -> Result<List<u32>, NoMemory>
    ensures { IfOk result (λ r. r ≡ file.name_numbers all.now) }
{
    let mut done = List::new(alloc);
    for name in all {
        done.push(name.0)?;
    }
    Ok(done)
}

fn is_base_type(names: &Names, t: u32) -> bool
    ensures { result ≡ file.base_type names.now t }
{
    match names.spell(Name(t)) {
        None => false,
        Some(text) => {
            text == "int" || text == "bool" || text == "char" || text == "string" || text == "unit"
        }
    }
}

fn any_known(known: &Known, cases: &[u32]) -> bool
    ensures { result ≡ list_any (λ c. is_some (faults.case_place 0 known.now.enums c)) cases.now }
{
    for case in cases {
        if known.case_place(*case).is_some() {
            return true;
        }
    }
    false
}

// Whether a type or a constructor of it is there already.
fn is_type_twice(
    alloc: Global,
    names: &Names,
    known: &Known,
    t: u32,
    cases: &[u32],
) -> Result<bool, NoMemory>
    ensures { IfOk result (λ r. r ≡ file.type_twice names.now known.now t cases.now) }
{
    Ok(
        is_base_type(names, t)
            || known.has_type(t)
            || repeated(alloc, cases)?
            || any_known(known, cases),
    )
}

fn no_uses(alloc: Global, params: &[Pat]) -> Result<List<Use>, NoMemory>
    ensures { IfOk result (λ r. r ≡ answer.no_uses params.now) }
{
    let mut done = List::new(alloc);
    for _param in params {
        done.push(Use {
            bound: Binder::Nothing,
        })?;
    }
    Ok(done)
}

fn type_of(
    alloc: Global,
    line: Line,
    name: Name,
    cases: &List<Name>,
) -> Result<DefOf<Use>, NoMemory>
    ensures { IfOk result (λ r. r ≡ DefOf.Cases line name cases.now) }
{
    let cases = cases.copy(alloc)?;
    Ok(DefOf::Cases { line, name, cases })
}

fn resolve_type(
    alloc: Global,
    names: &Names,
    known: Known,
    line: Line,
    name: Name,
    cases: &List<Name>,
) -> Result<(DefOf<Use>, Known), ScopeFault>
    ensures scoped { IfOk result (λ r. file.type_twice names.now known name.0 (file.name_numbers cases.now) ≡ false) }
    ensures made { IfOk result (λ r. r ≡ answer.type_made known line name cases.now) }
    ensures fault { IfErr result (λ f. answer.IsTwice f line (file.type_twice names.now known name.0 (file.name_numbers cases.now))) }
{
    let numbers = numbers_of(alloc, cases.as_slice())?;
    let twice = is_type_twice(alloc, names, &known, name.0, numbers.as_slice())?;
    if twice {
        return Err(ScopeFault::Twice(line));
    }
    let known = known.with_enum(name.0, numbers)?;
    let def = type_of(alloc, line, name, cases)?;
    Ok((def, known))
}

// One more definition: it with its binders and marks, and what stands after it.
fn resolve_definition<N>(
    alloc: Global,
    names: &Names,
    known: Known,
    def: &DefOf<N>,
) -> Result<(DefOf<Use>, Known), ScopeFault>
    ensures scoped { IfOk result (λ r. file.def_fault names.now known def.now ≡ None) }
    ensures made { IfOk result (λ r. r ≡ answer.made names.now known def.now) }
    ensures fault { IfErr result (λ f. answer.Blames f (file.def_fault names.now known def.now)) }
{
    match def {
        DefOf::Cases { line, name, cases } => {
            resolve_type(alloc, names, known, *line, *name, cases)
        }
        DefOf::Let {
            line,
            node,
            name,
            params,
            marks: _,
            notes: _,
            body,
        } => {
            let judged = Judged {
                names,
                known: &known,
                title: name.0,
                node: *node,
                params: params.as_slice(),
                body,
            };
            let judgement = match judge(alloc, *line, &judged) {
                Ok(judgement) => judgement,
                Err(fault) => return Err(fault),
            };
            let def = DefOf::Let {
                line: *line,
                node: *node,
                name: *name,
                params: params.copy(alloc)?,
                marks: judgement.marks,
                notes: no_uses(alloc, params.as_slice())?,
                body: judgement.body,
            };
            let known = known.with_def(judgement.earlier)?;
            Ok((def, known))
        }
    }
}

fn resolve_all<N>(
    alloc: Global,
    names: &Names,
    before: Known,
    defs: &[DefOf<N>],
) -> Result<List<DefOf<Use>>, ScopeFault>
    ensures scoped { IfOk result (λ r. file.first_fault names.now before defs.now ≡ None) }
    ensures made { IfOk result (λ r. r ≡ answer.resolved_defs names.now before defs.now) }
    ensures fault { IfErr result (λ f. answer.Blames f (file.first_fault names.now before defs.now)) }
{
    let mut known = before;
    let mut done = List::new(alloc);
    for def in defs {
        match resolve_definition(alloc, names, known, def) {
            Err(fault) => return Err(fault),
            Ok((def, after)) => match done.push(def) {
                Ok(()) => known = after,
                Err(_) => return Err(ScopeFault::NoMemory),
            },
        }
    }
    Ok(done)
}

/// The file with the binder of each use of a name and the mark of each parameter, after an
/// environment, whose enumerations and definitions have the first numbers. The names of the answer
/// are those of the file, and then those of the environment that the file lacks.
///
/// The answer is Ok exactly where no definition has a fault, and else the first kind of fault of
/// the first definition that has one, with the line on which it begins; or NoMemory, where a block
/// of memory was refused. The kinds come in the order of `ScopeFault`.
pub fn resolve_after(alloc: Global, env: &Env, file: &File) -> Result<Resolved, ScopeFault>
    ensures scoped { IfOk result (λ r. spec.scope_fault env.now file.now ≡ None) }
    ensures binders { IfOk result (λ r. r ≡ spec.resolved env.now file.now) }
    ensures fault { IfErr result (λ f. answer.Blames f (spec.scope_fault env.now file.now)) }
{
    let names = names_after(alloc, env, &file.names)?;
    let known = known_after(alloc, &names, env)?;
    let defs = resolve_all(alloc, &names, known, file.defs.as_slice())?;
    Ok(Resolved { defs, names })
}

/// The file with the binder of each use of a name and the mark of each parameter: `resolve_after`
/// the environment of nothing.
pub fn resolve(alloc: Global, file: &File) -> Result<Resolved, ScopeFault>
    ensures scoped { IfOk result (λ r. spec.scope_fault empty file.now ≡ None) }
    ensures binders { IfOk result (λ r. r ≡ spec.resolved empty file.now) }
    ensures fault { IfErr result (λ f. answer.Blames f (spec.scope_fault empty file.now)) }
{
    let env = Env::empty(alloc)?;
    resolve_after(alloc, &env, file)
}
