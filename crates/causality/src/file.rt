//! The definitions of a file, one after the other.

ghost use Rattle.std.specs.Prelude.{◌≡◌, ◌≢◌, ◌++◌, [], IsTrue, IfOk, IfErr, OnOk};
ghost use Rattle.case_tables.specs.Cases.{place};
ghost use Rattle.causality.specs.Decided.{Decided};
ghost use Rattle.causality.specs.Judged as own;
ghost use Rattle.causality.specs.Nodes.{fits};
ghost use Rattle.causality_rules.specs.Files as spec;
ghost use Rattle.ls_places.specs.Definitions as definitions;
ghost use Rattle.ls_places.specs.Definitions.{case_place};
ghost use Rattle.ls_places.specs.Places.{option_list};

use crate::judge::{Judgement, judge};
use crate::nodes::total_nodes;
use block_tables::BlockTables;
use case_tables::Cases;
use ls_ast::{BodyOf, DefOf, Pat};
use ls_base::{Line, List, NoMemory, NoteCopy};
use ls_places::{Definition, NoteSignals, find};
use ls_sig::{Ann, Item, Note, Ranks};
use ls_terms::ClockTerm;
use place_tables::Tables;
use std::alloc::Global;
use thiserror::Error;

/// Why the items of a file have no numbers.
#[derive(Debug, Drop, Error)]
pub enum CauseFault {
    /// The first definition that is not causal, by its first line, with items of it that wait for
    /// one another: each reads the next at the same instant, and the last the first.
    #[error("a stream waits for itself at one instant")]
    Cyclic(Line, List<Item>),
    /// A block of memory was refused.
    #[error("out of memory")]
    NoMemory,
}

impl From<NoMemory> for CauseFault {
    ghost use Rattle.std.specs.Prelude.{◌≡◌};
    ghost use Rattle.causality.specs.declared.file.CauseFault.{CauseFault};

    ghost from_gives = { λ error fault. fault ≡ CauseFault.NoMemory };

    fn from(_error: NoMemory) -> CauseFault {
        CauseFault::NoMemory
    }
}

// The greatest number of nodes of a graph, and of clock names.
const MOST: u64 = 4_294_967_295;

fn note_clocks(alloc: Global, notes: &[Note]) -> Result<List<ClockTerm>, NoMemory>
    ensures { IfOk result (λ r. r ≡ definitions.note_clocks notes.now) }
{
    let mut done = List::new(alloc);
    for note in notes {
        done.push(note.ck.copy(alloc)?)?;
    }
    Ok(done)
}

// A definition, with what stands where in its body.
fn definition(
    alloc: Global,
    cases: &Cases,
    params: &List<Pat>,
    notes: &[Note],
    body: &BodyOf<Note>,
) -> Result<Definition, NoMemory>
    ensures { IfOk result (λ r. r ≡ definitions.definition_of (place cases.now) params.now notes.now body.now) }
{
    let places = find(alloc, params.len() as u32, cases, &NoteSignals, body)?;
    Ok(Definition {
        params: params.copy(alloc)?,
        clocks: note_clocks(alloc, notes)?,
        result: body.result.copy(alloc)?,
        places,
    })
}

fn tables(
    alloc: Global,
    cases: &Cases,
    params: &List<Pat>,
    notes: &[Note],
    body: &BodyOf<Note>,
) -> Result<BlockTables, NoMemory>
    ensures { IfOk result (λ r. r ≡ definitions.definition_of (place cases.now) params.now notes.now body.now) }
{
    let def = definition(alloc, cases, params, notes, body)?;
    let known = Tables::new(alloc, def)?;
    BlockTables::new(alloc, known)
}

// Whether the nodes and the clock names are numbers of 32 bits.
fn has_room(d: &Definition) -> bool
    ensures { IsTrue result → fits d.now }
{
    let names = d.params.len() as u64 + d.places.names.len() as u64;
    total_nodes(d) <= MOST && names <= MOST
}

fn judge_let(
    alloc: Global,
    cases: &Cases,
    params: &List<Pat>,
    notes: &[Note],
    body: &BodyOf<Note>,
) -> Result<Judgement, NoMemory>
    ensures { IfOk result (Decided (definitions.definition_of (place cases.now) params.now notes.now body.now)) }
{
    let d = tables(alloc, cases, params, notes, body)?;
    if !has_room(d.definition()) {
        return Err(NoMemory);
    }
    judge(alloc, &d)
}

// The numbers of an item of a file, where it is a `let`.
fn judge_item(
    alloc: Global,
    cases: &Cases,
    item: &DefOf<Note>,
) -> Result<Option<List<(Item, u32)>>, CauseFault>
    ensures ranked { IfOk result (own.ItemRanked (place cases.now) item.now) }
    ensures looped { IfErr result (λ f. own.AtCycle f (own.ItemLoops (place cases.now) item.now)) }
{
    match item {
        DefOf::Cases { .. } => Ok(None),
        DefOf::Let {
            line,
            params,
            notes,
            body,
            ..
        } => match judge_let(alloc, cases, params, notes.as_slice(), body)? {
            Judgement::Causal(list) => Ok(Some(list)),
            Judgement::Cyclic(found) => Err(CauseFault::Cyclic(*line, found)),
        },
    }
}

// One more list, where there is one.
fn add_numbers(
    list: Option<List<(Item, u32)>>,
    done: &mut List<List<(Item, u32)>>,
) -> Result<(), NoMemory>
    ensures { OnOk result (done.new ≡ done.old ++ option_list list) }
{
    match list {
        None => Ok(()),
        Some(list) => done.push(list),
    }
}

fn judge_all(
    alloc: Global,
    cases: &Cases,
    items: &[DefOf<Note>],
) -> Result<List<List<(Item, u32)>>, CauseFault>
    ensures ranked { IfOk result (λ ls. spec.AllRanked (spec.lets (place cases.now) items.now) ls) }
    ensures looped { IfErr result (λ f. own.AtCycle f (spec.Looped (spec.lets (place cases.now) items.now))) }
{
    let mut done = List::new(alloc);
    for item in items {
        match judge_item(alloc, cases, item) {
            Err(fault) => return Err(fault),
            Ok(list) => add_numbers(list, &mut done)?,
        }
    }
    Ok(done)
}

/// For each definition of a file, a number for each of its items, which rises along each read at
/// one instant.
///
/// The answer is Ok exactly where each definition is causal, and else the first that is not, with
/// items that wait for one another; or NoMemory, where a block of memory was refused.
pub fn check_causality(alloc: Global, file: &Ann) -> Result<Ranks, CauseFault>
    ensures ranked { IfOk result (λ r. spec.AllRanked (spec.lets (case_place file.now.defs) file.now.defs) r.list) }
    ensures looped { IfErr result (λ f. own.AtCycle f (λ line items. (items ≢ []) × spec.Looped (spec.lets (case_place file.now.defs) file.now.defs) line items)) }
{
    let cases = Cases::new(alloc, file.defs.as_slice())?;
    match judge_all(alloc, &cases, file.defs.as_slice()) {
        Ok(list) => Ok(Ranks { list }),
        Err(fault) => Err(fault),
    }
}
