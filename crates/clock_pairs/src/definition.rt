//! All pairs of a definition.

ghost use Rattle.std.specs.Prelude.{◌≡◌, [], IfOk, OnOk};
ghost use Rattle.clock_pairs.specs.Scene as scene_of;
ghost use Rattle.clock_pairs.specs.Walks as walks;
ghost use Rattle.clock_rules.specs.Constraints as rules;

use crate::arms::Pair;
use crate::equations::{add_blocks, add_sites, add_starts};
use crate::expressions::{Collected, collect_expr};
use crate::scene::Scene;
use ls_base::{List, NoMemory};
use ls_places::{CasePlaces, Whole};
use ls_sig::Note;
use ls_terms::ClockTerm;
use std::alloc::Global;
use term_unify::Pairs;

/// The pairs of the expressions.
fn collect_wholes<C: CasePlaces>(
    alloc: Global,
    all: &[Whole<Note>],
    scene: &Scene<C>,
    state: &mut Collected,
) -> Result<(), NoMemory>
    ensures { OnOk result (state.new ≡ walks.collected C.place scene.now (walks.all_nodes all.now) state.old) }
{
    for whole in all {
        collect_expr(alloc, &whole.expr, whole.place.as_slice(), scene, state)?;
    }
    Ok(())
}

fn collected<C: CasePlaces>(
    alloc: Global,
    scene: &Scene<C>,
    next: u32,
) -> Result<List<Pair>, NoMemory>
    ensures { IfOk result (λ r. r ≡ (walks.collected C.place scene.now (walks.all_nodes scene.now.index.now.places.exprs) (record { list = []; next = next })).list) }
{
    let mut state = Collected {
        list: List::new(alloc),
        next,
    };
    collect_wholes(
        alloc,
        scene.index.places.exprs.as_slice(),
        scene,
        &mut state,
    )?;
    let Collected { list, .. } = state;
    Ok(list)
}

/// The pairs of clocks that have to be equal in a definition: those of its expressions, each with
/// new variables from `next` on for those of the signature that its name means, and those of its
/// equations and blocks. It is refused where memory is, and where no further number is left.
pub fn pairs_of<C: CasePlaces>(
    alloc: Global,
    scene: &Scene<C>,
    next: u32,
) -> Result<Pairs<ClockTerm>, NoMemory>
    ensures { IfOk result (λ r. r.list ≡ rules.constraints scene.now.schemes.now (scene_of.cases C.place scene.now) (walks.annotation C.place scene.now next)) }
{
    let mut list = collected(alloc, scene, next)?;
    let index = scene.index;
    add_sites(alloc, index.places.sites.as_slice(), scene, &mut list)?;
    add_starts(alloc, index.places.starts.as_slice(), scene, &mut list)?;
    add_blocks(alloc, index.first(), &index.places.names, scene, &mut list)?;
    Ok(Pairs { list })
}
