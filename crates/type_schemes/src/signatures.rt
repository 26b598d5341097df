//! Signatures of definitions.

ghost use Rattle.std.specs.Prelude.{◌≡◌, ◌+◌, ◌<◌, ◌^◌, ◌++◌, ◌∷◌, [], length, IfOk, OnOk};
ghost use Rattle.type_rules.specs.Files.{appearing, instance_of, lets, note_types};
ghost use Rattle.type_schemes.specs.Signatures as spec;

use crate::numbering::{order_of, renumber, renumber_all};
use ls_ast::{BodyOf, DefOf, Mark};
use ls_base::{List, Name, NoMemory, NoteCopy};
use ls_sig::{Env, Sig, TypeNote, Typed};
use ls_terms::{ClockTerm, Kind, TypeTerm};
use std::alloc::Global;

fn types_of(alloc: Global, notes: &[TypeNote]) -> Result<List<TypeTerm>, NoMemory>
    ensures { IfOk result (λ r. r ≡ note_types notes.now) }
{
    let mut done = List::new(alloc);
    for note in notes {
        done.push(note.ty.copy(alloc)?)?;
    }
    Ok(done)
}

fn kind_of(node: bool) -> Kind
    ensures { result ≡ spec.kind_of node }
{
    if node { Kind::Seq } else { Kind::Comb }
}

/// The signature that an annotated definition has, its variables numbered from 0 by first
/// appearance, parameters first. `notes` has a note for each parameter, and `to` is the type of the
/// result.
fn signature_with(
    alloc: Global,
    node: bool,
    name: Name,
    marks: &List<Mark>,
    notes: &[TypeNote],
    to: &TypeTerm,
) -> Result<Sig, NoMemory>
    ensures { IfOk result (λ r. r ≡ spec.signature_with node name marks.now (note_types notes.now) to.now) }
{
    let types = types_of(alloc, notes)?;
    let seen = order_of(alloc, types.as_slice(), to)?;
    let params = renumber_all(alloc, 0, types.as_slice(), &seen)?;
    let result = renumber(alloc, 0, to, &seen)?;
    Ok(Sig {
        name,
        kind: kind_of(node),
        marks: marks.copy(alloc)?,
        params,
        result,
        clocks: List::new(alloc),
        result_clock: ClockTerm::Var(0),
        clock_names: List::new(alloc),
    })
}

/// The signature that an annotated definition has, its variables numbered from 0 by first
/// appearance, parameters first. `notes` has a note for each parameter.
pub fn signature(
    alloc: Global,
    node: bool,
    name: Name,
    marks: &List<Mark>,
    notes: &[TypeNote],
    body: &BodyOf<TypeNote>,
) -> Result<Sig, NoMemory>
    ensures { IfOk result (λ r. r ≡ spec.signature_of_body node name marks.now notes.now body.now) }
{
    signature_with(alloc, node, name, marks, notes, &body.result.note.ty)
}

/// An instance of a signature whose variables are numbered from a number on, by first appearance.
pub fn instance(alloc: Global, sig: &Sig, first: u32) -> Result<Sig, NoMemory>
    requires { first + length (appearing (sig.now.params ++ sig.now.result ∷ [])) < 2 ^ 32 }
    ensures { IfOk result (λ r. r ≡ instance_of sig.now first) }
{
    let seen = order_of(alloc, sig.params.as_slice(), &sig.result)?;
    let params = renumber_all(alloc, first, sig.params.as_slice(), &seen)?;
    let result = renumber(alloc, first, &sig.result, &seen)?;
    Ok(Sig {
        name: sig.name,
        kind: sig.kind,
        marks: sig.marks.copy(alloc)?,
        params,
        result,
        clocks: sig.clocks.copy(alloc)?,
        result_clock: sig.result_clock.copy(alloc)?,
        clock_names: sig.clock_names.copy(alloc)?,
    })
}

fn add_signature(alloc: Global, def: &DefOf<TypeNote>, list: &mut List<Sig>) -> Result<(), NoMemory>
    ensures { OnOk result (list.new ≡ list.old ++ spec.signatures_of (lets (def.now ∷ []))) }
{
    match def {
        DefOf::Cases { .. } => Ok(()),
        DefOf::Let {
            node,
            name,
            marks,
            notes,
            body,
            ..
        } => list.push(signature(alloc, *node, *name, marks, notes.as_slice(), body)?),
    }
}

/// The signatures of the definitions of a file with its types, in order. The clocks are absent:
/// the lists are empty, and the result's clock is `Var(0)`.
pub fn type_signatures(alloc: Global, _env: &Env, file: &Typed) -> Result<List<Sig>, NoMemory>
    ensures { IfOk result (λ r. r ≡ spec.signatures_of (lets file.now.defs)) }
{
    let mut list = List::new(alloc);
    let defs = file.defs.as_slice();
    for def in defs {
        add_signature(alloc, def, &mut list)?;
    }
    Ok(list)
}
