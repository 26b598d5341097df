//! The judgements on a tree whose names are resolved: types, clocks, initialisation.

ghost use Rattle.std.specs.Prelude.{◌≡◌, IfOk, IfErr};
ghost use Rattle.ls_front.specs.Front as spec;

use crate::checked::Checked;
use crate::enums::{enum_constructors, enum_names};
use crate::fault::FrontFault;
use clock_infer::{ClockFault, clock_signatures, infer_clocks};
use init_check::{InitFault, check_init};
use ls_sig::{Ann, Env, InitSigs, Resolved, Typed};
use std::alloc::Global;
use type_infer::{TypeFault, infer_types};
use type_schemes::type_signatures;

/// The judgements on a file whose names are resolved.
pub(crate) fn judge_names(alloc: Global, file: &Resolved) -> Result<Checked, FrontFault>
    ensures accepted { spec.IsSane file.now → IfOk result (λ r. spec.TypesAccepted file.now r) }
    ensures fault { spec.IsSane file.now → IfErr result (λ f. spec.TypesFail file.now f) }
    ensures inside { IfErr result (λ f. spec.IsInside f) }
{
    match infer_types(alloc, file) {
        Ok(typed) => judge_typed(alloc, &typed),
        Err(TypeFault::NoMemory) => Err(FrontFault::NoMemory),
        Err(fault) => Err(FrontFault::Types(fault)),
    }
}

/// Those on a file with its types.
fn judge_typed(alloc: Global, typed: &Typed) -> Result<Checked, FrontFault>
    ensures accepted { IfOk result (λ r. spec.ClocksAccepted typed.now (spec.signatures_of_file typed.now) r) }
    ensures fault { IfErr result (λ f. spec.ClocksFail typed.now f) }
    ensures inside { IfErr result (λ f. spec.IsInside f) }
{
    match infer_clocks(alloc, typed) {
        Ok(ann) => judge_clocked(alloc, typed, ann),
        Err(ClockFault::NoMemory) => Err(FrontFault::NoMemory),
        Err(fault) => Err(FrontFault::Clocks(fault)),
    }
}

/// Those on a file with its clocks, which are these types.
fn judge_clocked(alloc: Global, typed: &Typed, ann: Ann) -> Result<Checked, FrontFault>
    ensures accepted { IfOk result (λ r. spec.InitAccepted (spec.signatures_of_file typed.now) ann r) }
    ensures fault { IfErr result (λ f. spec.InitFails ann f) }
    ensures inside { IfErr result (λ f. spec.IsInside f) }
{
    match check_init(alloc, &ann) {
        Ok(inits) => keep(alloc, typed, ann, inits),
        Err(InitFault::NoMemory) => Err(FrontFault::NoMemory),
        Err(fault) => Err(FrontFault::Init(fault)),
    }
}

/// What the judgements gave, with the signatures and the enumerations.
fn keep(alloc: Global, typed: &Typed, ann: Ann, inits: InitSigs) -> Result<Checked, FrontFault>
    ensures kept { IfOk result (λ r. spec.IsKept (spec.signatures_of_file typed.now) ann inits r) }
    ensures fault { IfErr result (λ f. f ≡ FrontFault.NoMemory) }
{
    let env = Env::empty(alloc)?;
    let types = type_signatures(alloc, &env, typed)?;
    let sigs = clock_signatures(alloc, types, &ann)?;
    let enums = enum_names(alloc, ann.defs.as_slice())?;
    let constructors = enum_constructors(alloc, ann.defs.as_slice())?;
    Ok(Checked {
        ann,
        sigs,
        inits,
        enums,
        constructors,
    })
}
