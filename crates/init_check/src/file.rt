//! The definitions of a file, one after the other.

ghost use Rattle.std.specs.Prelude.{◌≡◌, ◌++◌, [], OnOk, IfOk, IfErr};
ghost use Rattle.std.specs.Option.{option_copied};
ghost use Rattle.case_tables.specs.Cases.{place};
ghost use Rattle.init_check.specs.Judged as own;
ghost use Rattle.init_rules.specs.Files as spec;
ghost use Rattle.ls_places.specs.Definitions as definitions;
ghost use Rattle.ls_places.specs.Definitions.{case_place};
ghost use Rattle.ls_places.specs.Places.{option_list};

use crate::judge::decide;
use crate::nodes::total_nodes;
use case_tables::Cases;
use ls_ast::{BodyOf, DefOf, Mark, Pat};
use ls_base::{Line, List, NoMemory, NoteCopy};
use ls_places::{Definition, NoteSignals, find};
use ls_sig::{Ann, Env, InitSig, InitSigs, Note};
use ls_terms::ClockTerm;
use place_tables::{Tables, nth};
use std::alloc::Global;
use thiserror::Error;

/// Why a file has no initialisation signatures.
#[derive(Clone, Copy, Debug, PartialEq, Eq, Error)]
pub enum InitFault {
    /// The first definition that may use a stream where it is not defined yet, by its first line.
    #[error("a stream is used at an instant at which it may be undefined")]
    Uninitialised(Line),
    /// A block of memory was refused.
    #[error("out of memory")]
    NoMemory,
}

impl From<NoMemory> for InitFault {
    ghost use Rattle.std.specs.Prelude.{◌≡◌};
    ghost use Rattle.init_check.specs.declared.file.InitFault.{InitFault};

    ghost from_gives = { λ error fault. fault ≡ InitFault.NoMemory };

    fn from(_error: NoMemory) -> InitFault {
        InitFault::NoMemory
    }
}

// The greatest number of nodes of a graph.
const MOST: u64 = 4_294_967_295;

fn note_clocks(alloc: Global, notes: &[Note]) -> Result<List<ClockTerm>, NoMemory>
    ensures { IfOk result (λ r. r ≡ definitions.note_clocks notes.now) }
{
    let mut done = List::new(alloc);
    for note in notes {
        done.push(note.ck.copy(alloc)?)?;
    }
    Ok(done)
}

fn tables(
    alloc: Global,
    cases: &Cases,
    params: &List<Pat>,
    notes: &[Note],
    body: &BodyOf<Note>,
) -> Result<Tables, NoMemory>
    ensures { IfOk result (λ r. r ≡ definitions.definition_of (place cases.now) params.now notes.now body.now) }
{
    let places = find(alloc, params.len() as u32, cases, &NoteSignals, body)?;
    let def = Definition {
        params: params.copy(alloc)?,
        clocks: note_clocks(alloc, notes)?,
        result: body.result.copy(alloc)?,
        places,
    };
    Tables::new(alloc, def)
}

fn is_data(mark: Option<&Mark>) -> bool
    ensures { result ≡ own.is_known_data (option_copied mark.entry) }
{
    match mark {
        Some(Mark::Data) => true,
        _ => false,
    }
}

// For each parameter whether it stands for a stream of values alone.
fn data_marks(alloc: Global, params: &[Pat], marks: &[Mark]) -> Result<List<bool>, NoMemory>
    ensures { IfOk result (λ r. r ≡ spec.data_marks params.now marks.now) }
{
    let mut done = List::new(alloc);
    for i in 0..params.len() {
        done.push(is_data(nth(marks, i)))?;
    }
    Ok(done)
}

fn judge_let(
    alloc: Global,
    cases: &Cases,
    sigs: &[InitSig],
    params: &List<Pat>,
    marks: &[Mark],
    notes: &[Note],
    body: &BodyOf<Note>,
) -> Result<Option<InitSig>, NoMemory>
    ensures { IfOk result (own.Decided (definitions.definition_of (place cases.now) params.now notes.now body.now) sigs.now (spec.data_marks params.now marks.now)) }
{
    let d = tables(alloc, cases, params, notes, body)?;
    if total_nodes(d.definition()) > MOST {
        return Err(NoMemory);
    }
    let known = data_marks(alloc, params.as_slice(), marks)?;
    decide(alloc, &d, sigs, known.as_slice())
}

// The signature of an item, where it is a `let`.
fn judge_item(
    alloc: Global,
    cases: &Cases,
    sigs: &[InitSig],
    item: &DefOf<Note>,
) -> Result<Option<InitSig>, InitFault>
    ensures judged { IfOk result (own.ItemJudged (place cases.now) sigs.now item.now) }
    ensures fault { IfErr result (λ f. own.AtLine f (own.ItemFails (place cases.now) sigs.now item.now)) }
{
    match item {
        DefOf::Cases { .. } => Ok(None),
        DefOf::Let {
            line,
            params,
            marks,
            notes,
            body,
            ..
        } => match judge_let(
            alloc,
            cases,
            sigs,
            params,
            marks.as_slice(),
            notes.as_slice(),
            body,
        )? {
            None => Err(InitFault::Uninitialised(*line)),
            Some(sig) => Ok(Some(sig)),
        },
    }
}

// One more signature, where there is one.
fn add_signature(
    alloc: Global,
    sig: Option<InitSig>,
    done: &mut List<InitSig>,
    sigs: &mut List<InitSig>,
) -> Result<(), NoMemory>
    ensures done { OnOk result (done.new ≡ done.old ++ option_list sig) }
    ensures sigs { OnOk result (sigs.new ≡ sigs.old ++ option_list sig) }
{
    match sig {
        None => Ok(()),
        Some(sig) => {
            done.push(sig.copy(alloc)?)?;
            sigs.push(sig)
        }
    }
}

fn judge_all(
    alloc: Global,
    cases: &Cases,
    before: &List<InitSig>,
    items: &[DefOf<Note>],
) -> Result<List<InitSig>, InitFault>
    ensures judged { IfOk result (λ ss. spec.Judged before.now (spec.lets (place cases.now) items.now) ss) }
    ensures fault { IfErr result (λ f. own.AtLine f (spec.Uninitialised before.now (spec.lets (place cases.now) items.now))) }
{
    let mut sigs = before.copy(alloc)?;
    let mut done = List::new(alloc);
    for item in items {
        match judge_item(alloc, cases, sigs.as_slice(), item) {
            Err(fault) => return Err(fault),
            Ok(sig) => add_signature(alloc, sig, &mut done, &mut sigs)?,
        }
    }
    Ok(done)
}

/// The initialisation signatures of the definitions of a file, after an environment, whose
/// definitions have the first numbers.
///
/// The answer is Ok exactly where each definition is initialised, by the signatures of those
/// before it, and else the first that is not; or NoMemory, where a block of memory was refused.
pub fn check_init_after(alloc: Global, env: &Env, file: &Ann) -> Result<InitSigs, InitFault>
    ensures judged { IfOk result (λ r. spec.Judged env.now.inits.list (spec.lets (case_place file.now.defs) file.now.defs) r.list) }
    ensures fault { IfErr result (λ f. own.AtLine f (spec.Uninitialised env.now.inits.list (spec.lets (case_place file.now.defs) file.now.defs))) }
{
    let cases = Cases::new(alloc, file.defs.as_slice())?;
    match judge_all(alloc, &cases, &env.inits.list, file.defs.as_slice()) {
        Ok(list) => Ok(InitSigs { list }),
        Err(fault) => Err(fault),
    }
}

/// The initialisation signatures of the definitions of a file: `check_init_after` the environment
/// of nothing.
pub fn check_init(alloc: Global, file: &Ann) -> Result<InitSigs, InitFault>
    ensures judged { IfOk result (λ r. spec.Judged [] (spec.lets (case_place file.now.defs) file.now.defs) r.list) }
    ensures fault { IfErr result (λ f. own.AtLine f (spec.Uninitialised [] (spec.lets (case_place file.now.defs) file.now.defs))) }
{
    let none = List::new(alloc);
    let cases = Cases::new(alloc, file.defs.as_slice())?;
    match judge_all(alloc, &cases, &none, file.defs.as_slice()) {
        Ok(list) => Ok(InitSigs { list }),
        Err(fault) => Err(fault),
    }
}
