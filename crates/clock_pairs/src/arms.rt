//! Clocks that are seen inside the arms of blocks.

ghost use Rattle.std.specs.Prelude.{◌≡◌, ◌++◌, IfOk, OnOk};
ghost use Rattle.clock_pairs.specs.Scene as spec;
ghost use Rattle.clock_pairs.specs.Sight as sight;
ghost use Rattle.ls_places.specs.Places as places;
ghost use Rattle.ls_places.specs.Search as search;

use crate::scene::{Meant, Scene};
use crate::terms::{is_function, on, past};
use ls_base::{List, NoMemory, NoteCopy};
use ls_places::{CasePlaces, Frame};
use ls_sig::{Binder, Note};
use ls_terms::ClockTerm;
use std::alloc::Global;

/// Two clocks that have to be equal.
pub type Pair = (ClockTerm, ClockTerm);

/// The arms among what is around a place.
pub fn arms(alloc: Global, place: &[Frame]) -> Result<List<(u32, u32)>, NoMemory>
    ensures { IfOk result (λ r. r ≡ places.arms place.now) }
{
    let mut done = List::new(alloc);
    for frame in place {
        match frame {
            Frame::Reset(_) => {}
            Frame::Arm(m, j) => done.push((*m, *j))?,
        }
    }
    Ok(done)
}

/// A clock is seen inside these arms as another: at the border of each arm it is that of the arm's
/// block.
pub fn add_seen<C: CasePlaces>(
    alloc: Global,
    ck: ClockTerm,
    inner: &[(u32, u32)],
    here: &ClockTerm,
    scene: &Scene<C>,
    out: &mut List<Pair>,
) -> Result<(), NoMemory>
    ensures { OnOk result (out.new ≡ out.old ++ spec.seen C.place scene.now ck inner.now here.now) }
{
    let mut inside = ck;
    for arm in inner {
        out.push((inside.copy(alloc)?, scene.block(alloc, arm.0)?))?;
        inside = on(alloc, inside, arm.0, arm.1)?;
    }
    out.push((inside, here.copy(alloc)?))
}

/// What is meant is seen at this place as a clock.
pub fn add_seen_at<C: CasePlaces>(
    alloc: Global,
    meant: Meant,
    place: &[Frame],
    here: &ClockTerm,
    scene: &Scene<C>,
    out: &mut List<Pair>,
) -> Result<(), NoMemory>
    ensures { OnOk result (out.new ≡ out.old ++ spec.seen_at C.place scene.now place.now here.now meant) }
{
    let arms = arms(alloc, place)?;
    let (ck, list) = meant;
    let inner = past(arms.as_slice(), list.len());
    add_seen(alloc, ck, inner, here, scene, out)
}

/// A use of a stream's or a signal's name; a function's name is not sampled.
pub fn add_used<C: CasePlaces>(
    alloc: Global,
    note: &Note,
    place: &[Frame],
    scene: &Scene<C>,
    out: &mut List<Pair>,
) -> Result<(), NoMemory>
    ensures { OnOk result (out.new ≡ out.old ++ spec.used C.place scene.now note.now place.now) }
{
    match scene.meaning(alloc, note.bound)? {
        None => Ok(()),
        Some(meant) => {
            if is_function(&note.ty) {
                let (ck, _) = meant;
                out.push((ck, note.ck.copy(alloc)?))
            } else {
                add_seen_at(alloc, meant, place, &note.ck, scene, out)
            }
        }
    }
}

/// The condition of a sampling is on the clock of what is sampled.
pub fn add_condition<C: CasePlaces>(
    alloc: Global,
    bound: Binder,
    ck: &ClockTerm,
    scene: &Scene<C>,
    out: &mut List<Pair>,
) -> Result<(), NoMemory>
    ensures { OnOk result (out.new ≡ out.old ++ spec.condition C.place scene.now bound ck.now) }
{
    match scene.meaning(alloc, bound)? {
        None => Ok(()),
        Some(meant) => {
            let (own, _) = meant;
            out.push((own, ck.copy(alloc)?))
        }
    }
}

/// The number of the signal of this name that is seen in these arms.
pub fn signal_in<C: CasePlaces>(
    alloc: Global,
    x: u32,
    here: &[(u32, u32)],
    scene: &Scene<C>,
) -> Result<Option<u32>, NoMemory>
    ensures { IfOk result (λ r. r ≡ search.signal_in x here.now scene.now.index.now.places.vars 0) }
{
    let mut first = scene.index.place_of(alloc, x, &here[..0])?;
    for end in 1..here.len() + 1 {
        let next = scene.index.place_of(alloc, x, &here[..end])?;
        first = earlier(first, next);
    }
    Ok(first)
}

fn earlier(a: Option<u32>, b: Option<u32>) -> Option<u32>
    ensures { result ≡ sight.earlier a b }
{
    match a {
        None => b,
        Some(x) => match b {
            None => a,
            Some(y) => Some(x.min(y)),
        },
    }
}
