//! The types of a file.

ghost use Rattle.std.specs.Prelude.{◌≡◌, ◌++◌, ◌∷◌, [], ℕ, IfOk, OnOk};
ghost use Rattle.ls_base.specs.declared.Line.{Line};
ghost use Rattle.ls_sig.specs.Environment.{empty};
ghost use Rattle.type_infer.specs.Constructors.{case_type};
ghost use Rattle.type_infer.specs.Files as spec;
ghost use Rattle.type_rules.specs.Files.{Illtyped, lets};
ghost use Rattle.type_schemes.specs.Signatures.{signatures_of};

use crate::cases::FileCases;
use crate::definition::{Let, infer_definition};
use crate::fault::TypeFault;
use ls_ast::DefOf;
use ls_base::{List, NoMemory, NoteCopy};
use ls_sig::{Env, Resolved, Sig, TypeNote, Typed, Use};
use std::alloc::Global;
use type_readings::CaseTypes;
use type_schemes::signature;
use type_solve::SolveFault;

/// The types of one definition, after the signatures of those before it.
fn infer_def<C: CaseTypes>(
    alloc: Global,
    sigs: &[Sig],
    types: &C,
    def: &DefOf<Use>,
) -> Result<DefOf<TypeNote>, TypeFault>
    ensures typed { IfOk result (λ r. spec.IsTyped (C.case_type types.now) 4096 sigs.now def.now r) }
    ensures ill { (line : Line) → result ≡ Err (TypeFault.IllTyped line) → spec.IsIll (C.case_type types.now) 4096 sigs.now def.now line }
{
    match def {
        DefOf::Cases { line, name, cases } => Ok(DefOf::Cases {
            line: *line,
            name: *name,
            cases: cases.copy(alloc)?,
        }),
        DefOf::Let {
            line,
            node,
            name,
            params,
            marks,
            notes,
            body,
        } => {
            let given = Let {
                params,
                marks,
                notes,
                body,
            };
            let done = match infer_definition(alloc, sigs, types, &given) {
                Ok(done) => done,
                Err(SolveFault::Unsolved) => return Err(TypeFault::IllTyped(*line)),
                Err(SolveFault::NoMemory) => return Err(TypeFault::NoMemory),
            };
            Ok(DefOf::Let {
                line: *line,
                node: *node,
                name: *name,
                params: params.copy(alloc)?,
                marks: marks.copy(alloc)?,
                notes: done.notes,
                body: done.body,
            })
        }
    }
}

/// Adds the signature of a definition.
fn add_signature(alloc: Global, def: &DefOf<TypeNote>, sigs: &mut List<Sig>) -> Result<(), NoMemory>
    ensures { OnOk result (sigs.new ≡ sigs.old ++ signatures_of (lets (def.now ∷ []))) }
{
    match def {
        DefOf::Cases { .. } => Ok(()),
        DefOf::Let {
            node,
            name,
            marks,
            notes,
            body,
            ..
        } => sigs.push(signature(alloc, *node, *name, marks, notes.as_slice(), body)?),
    }
}

/// The types of definitions, one after the other.
fn infer_defs<C: CaseTypes>(
    alloc: Global,
    before: &List<Sig>,
    types: &C,
    defs: &[DefOf<Use>],
) -> Result<List<DefOf<TypeNote>>, TypeFault>
    ensures typed { spec.AreFunctionsAll (C.case_type types.now) 4096 before.now (lets defs.now) → IfOk result (λ r. spec.AreTyped (C.case_type types.now) 4096 before.now defs.now r) }
    ensures ill { spec.AreFunctionsAll (C.case_type types.now) 4096 before.now (lets defs.now) → (line : Line) → result ≡ Err (TypeFault.IllTyped line) → Illtyped (C.case_type types.now) 4096 before.now (lets defs.now) line }
{
    let mut sigs = before.copy(alloc)?;
    let mut done = List::new(alloc);
    for def in defs {
        let typed = match infer_def(alloc, sigs.as_slice(), types, def) {
            Ok(typed) => typed,
            Err(fault) => return Err(fault),
        };
        add_signature(alloc, &typed, &mut sigs)?;
        done.push(typed)?;
    }
    Ok(done)
}

/// The types of a file after an environment, whose definitions and enumerations have the first
/// numbers: a principal annotation of each definition with types of at most 4,096 nodes, and
/// `IllTyped` where a definition has none.
pub fn infer_types_after(alloc: Global, env: &Env, file: &Resolved) -> Result<Typed, TypeFault>
    ensures names { IfOk result (λ r. r.names ≡ file.now.names) }
    ensures typed { spec.AreFunctionsAll (case_type env.now file.now) 4096 env.now.sigs (lets file.now.defs) → IfOk result (λ r. spec.AreTyped (case_type env.now file.now) 4096 env.now.sigs file.now.defs r.defs) }
    ensures ill { spec.AreFunctionsAll (case_type env.now file.now) 4096 env.now.sigs (lets file.now.defs) → (line : Line) → result ≡ Err (TypeFault.IllTyped line) → Illtyped (case_type env.now file.now) 4096 env.now.sigs (lets file.now.defs) line }
{
    let types = FileCases::new(alloc, env, file)?;
    match infer_defs(alloc, &env.sigs, &types, file.defs.as_slice()) {
        Ok(defs) => {
            let names = file.names.copy(alloc)?;
            Ok(Typed { defs, names })
        }
        Err(fault) => Err(fault),
    }
}

/// The types of a file: `infer_types_after` the environment of nothing.
pub fn infer_types(alloc: Global, file: &Resolved) -> Result<Typed, TypeFault>
    ensures names { IfOk result (λ r. r.names ≡ file.now.names) }
    ensures typed { spec.AreFunctionsAll (case_type empty file.now) 4096 [] (lets file.now.defs) → IfOk result (λ r. spec.AreTyped (case_type empty file.now) 4096 [] file.now.defs r.defs) }
    ensures ill { spec.AreFunctionsAll (case_type empty file.now) 4096 [] (lets file.now.defs) → (line : Line) → result ≡ Err (TypeFault.IllTyped line) → Illtyped (case_type empty file.now) 4096 [] (lets file.now.defs) line }
{
    let env = Env::empty(alloc)?;
    infer_types_after(alloc, &env, file)
}
