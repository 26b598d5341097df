//! The pairs of equations and blocks.

ghost use Rattle.std.specs.Prelude.{◌≡◌, ◌+◌, ◌<◌, ◌^◌, ◌++◌, length, IfOk, OnOk};
ghost use Rattle.clock_pairs.specs.Scene as spec;
ghost use Rattle.clock_rules.specs.Rules as rules;

use crate::arms::{Pair, add_seen, add_seen_at, arms, signal_in};
use crate::scene::{Meant, Scene, clock_at};
use crate::terms::on;
use ls_base::{List, NoMemory, NoteCopy};
use ls_places::{CasePlaces, Frame, Named, Right, Site, Start, Transition};
use ls_terms::ClockTerm;
use std::alloc::Global;

/// The innermost of some arms.
fn innermost(arms: &[(u32, u32)]) -> Option<(u32, u32)>
    ensures { result ≡ rules.innermost arms.now }
{
    let mut last = None;
    for arm in arms {
        last = Some(*arm);
    }
    last
}

/// A name of the pattern of a test is on the clock of the arm.
fn add_pattern<C: CasePlaces>(
    alloc: Global,
    x: u32,
    arm: Option<(u32, u32)>,
    scene: &Scene<C>,
    out: &mut List<Pair>,
) -> Result<(), NoMemory>
    ensures { OnOk result (out.new ≡ out.old ++ spec.pattern_pairs C.place scene.now x arm) }
{
    match arm {
        None => Ok(()),
        Some((m, j)) => {
            let own = clock_at(alloc, scene.vars, x as usize)?;
            let block = scene.block(alloc, m)?;
            let here = on(alloc, block, m, j)?;
            out.push((own, here))
        }
    }
}

/// The clock of a variable is seen at its equation as that of the right side of this number.
fn add_right_side<C: CasePlaces>(
    alloc: Global,
    x: u32,
    inner: &[(u32, u32)],
    k: u32,
    scene: &Scene<C>,
    out: &mut List<Pair>,
) -> Result<(), NoMemory>
    ensures { OnOk result (out.new ≡ out.old ++ spec.side_pairs C.place scene.now x inner.now k) }
{
    match scene.whole_note(k) {
        None => Ok(()),
        Some(note) => {
            let own = clock_at(alloc, scene.vars, x as usize)?;
            add_seen(alloc, own, inner, &note.ck, scene, out)
        }
    }
}

fn add_right<C: CasePlaces>(
    alloc: Global,
    x: u32,
    site: &Site,
    scene: &Scene<C>,
    out: &mut List<Pair>,
) -> Result<(), NoMemory>
    ensures { OnOk result (out.new ≡ out.old ++ spec.right_pairs C.place scene.now x site.now site.now.right) }
{
    match &site.right {
        Right::Part(_, k) => add_right_side(alloc, x, site.inner.as_slice(), *k, scene, out),
        Right::Whole(k) => add_right_side(alloc, x, site.inner.as_slice(), *k, scene, out),
        Right::Pattern(_, _) => {
            let around = arms(alloc, site.place.as_slice())?;
            add_pattern(alloc, x, innermost(around.as_slice()), scene, out)
        }
    }
}

/// The variables that an equation binds.
fn add_vars<C: CasePlaces>(
    alloc: Global,
    site: &Site,
    vars: &[u32],
    scene: &Scene<C>,
    out: &mut List<Pair>,
) -> Result<(), NoMemory>
    ensures { OnOk result (out.new ≡ out.old ++ spec.vars_pairs C.place scene.now site.now vars.now) }
{
    for x in vars {
        add_right(alloc, *x, site, scene, out)?;
    }
    Ok(())
}

/// The equations.
pub fn add_sites<C: CasePlaces>(
    alloc: Global,
    all: &[Site],
    scene: &Scene<C>,
    out: &mut List<Pair>,
) -> Result<(), NoMemory>
    ensures { OnOk result (out.new ≡ out.old ++ spec.sites_pairs C.place scene.now all.now) }
{
    for site in all {
        add_vars(alloc, site, site.vars.as_slice(), scene, out)?;
    }
    Ok(())
}

/// An initial equation of the variable of this number.
fn add_begin<C: CasePlaces>(
    alloc: Global,
    start: &Start,
    x: Option<u32>,
    scene: &Scene<C>,
    out: &mut List<Pair>,
) -> Result<(), NoMemory>
    ensures { OnOk result (out.new ≡ out.old ++ spec.begin_pairs C.place scene.now start.now x) }
{
    match x {
        None => Ok(()),
        Some(x) => match scene.whole_note(start.right) {
            None => Ok(()),
            Some(note) => {
                let own = clock_at(alloc, scene.vars, x as usize)?;
                out.push((own, note.ck.copy(alloc)?))
            }
        },
    }
}

/// The initial equations.
pub fn add_starts<C: CasePlaces>(
    alloc: Global,
    all: &[Start],
    scene: &Scene<C>,
    out: &mut List<Pair>,
) -> Result<(), NoMemory>
    ensures { OnOk result (out.new ≡ out.old ++ spec.starts_pairs C.place scene.now all.now) }
{
    for start in all {
        let x = scene
            .index
            .place_of(alloc, start.name, start.list.as_slice())?;
        add_begin(alloc, start, x, scene, out)?;
    }
    Ok(())
}

/// The clock of a signal: that of the variable of this number, or that of a parameter.
fn signal_meaning<C: CasePlaces>(
    alloc: Global,
    x: u32,
    k: Option<u32>,
    scene: &Scene<C>,
) -> Result<Option<Meant>, NoMemory>
    ensures { IfOk result (λ r. r ≡ spec.signal_meaning C.place scene.now x k) }
{
    match k {
        Some(k) => Ok(Some(scene.variable(alloc, k)?)),
        None => scene.param(alloc, scene.index.param_named(x)),
    }
}

fn add_signal<C: CasePlaces>(
    alloc: Global,
    ck: &ClockTerm,
    place: &[Frame],
    x: u32,
    scene: &Scene<C>,
    out: &mut List<Pair>,
) -> Result<(), NoMemory>
    ensures { OnOk result (out.new ≡ out.old ++ spec.signal_at C.place scene.now ck.now place.now x) }
{
    let around = arms(alloc, place)?;
    let k = signal_in(alloc, x, around.as_slice(), scene)?;
    match signal_meaning(alloc, x, k, scene)? {
        None => Ok(()),
        Some(meant) => add_seen_at(alloc, meant, place, ck, scene, out),
    }
}

/// Each tested signal is seen at this place as a clock.
fn add_signals<C: CasePlaces>(
    alloc: Global,
    ck: &ClockTerm,
    place: &[Frame],
    names: &[u32],
    scene: &Scene<C>,
    out: &mut List<Pair>,
) -> Result<(), NoMemory>
    ensures { OnOk result (out.new ≡ out.old ++ spec.signal_pairs C.place scene.now ck.now place.now names.now) }
{
    for x in names {
        add_signal(alloc, ck, place, *x, scene, out)?;
    }
    Ok(())
}

/// A whole expression is on this clock.
fn add_whole_on<C: CasePlaces>(
    alloc: Global,
    k: u32,
    ck: &ClockTerm,
    scene: &Scene<C>,
    out: &mut List<Pair>,
) -> Result<(), NoMemory>
    ensures { OnOk result (out.new ≡ out.old ++ spec.whole_on C.place scene.now k ck.now) }
{
    match scene.whole_note(k) {
        None => Ok(()),
        Some(note) => out.push((note.ck.copy(alloc)?, ck.copy(alloc)?)),
    }
}

/// The conditions of guards are on this clock.
fn add_conditions<C: CasePlaces>(
    alloc: Global,
    ck: &ClockTerm,
    all: &[Transition],
    scene: &Scene<C>,
    out: &mut List<Pair>,
) -> Result<(), NoMemory>
    ensures { OnOk result (out.new ≡ out.old ++ spec.conditions_on C.place scene.now ck.now all.now) }
{
    for guard in all {
        add_whole_on(alloc, guard.cond, ck, scene, out)?;
    }
    Ok(())
}

/// The guards of each state are on the clock of the state.
fn add_guards<C: CasePlaces>(
    alloc: Global,
    ck: &ClockTerm,
    m: u32,
    all: &List<(u32, List<Transition>)>,
    scene: &Scene<C>,
    out: &mut List<Pair>,
) -> Result<(), NoMemory>
    ensures { OnOk result (out.new ≡ out.old ++ spec.guard_pairs C.place scene.now ck.now m 0 all.now) }
{
    let states = all.as_slice();
    for (s, state) in states.iter().enumerate() {
        let inside = on(alloc, ck.copy(alloc)?, m, s as u32)?;
        add_conditions(alloc, &inside, state.1.as_slice(), scene, out)?;
    }
    Ok(())
}

/// An automaton's first name, that of its bodies and weak guards: both of its names have one clock.
fn add_active<C: CasePlaces>(
    alloc: Global,
    m: u32,
    all: &List<(u32, List<Transition>)>,
    scene: &Scene<C>,
    out: &mut List<Pair>,
) -> Result<(), NoMemory>
    requires { m + 1 < 2 ^ 32 }
    ensures { OnOk result (out.new ≡ out.old ++ spec.active_pairs C.place scene.now m all.now) }
{
    let own = scene.block(alloc, m)?;
    out.push((scene.block(alloc, m + 1)?, own.copy(alloc)?))?;
    add_guards(alloc, &own, m + 1, all, scene, out)
}

/// The block of this clock name.
fn add_block<C: CasePlaces>(
    alloc: Global,
    m: u32,
    named: &Named,
    scene: &Scene<C>,
    out: &mut List<Pair>,
) -> Result<(), NoMemory>
    requires { m + 1 < 2 ^ 32 }
    ensures { OnOk result (out.new ≡ out.old ++ spec.block_pairs C.place scene.now m named.now) }
{
    match named {
        Named::Clock(_) => Ok(()),
        Named::Match(k, _, _) => {
            let own = scene.block(alloc, m)?;
            add_whole_on(alloc, *k, &own, scene, out)
        }
        Named::Present(names, place) => {
            let own = scene.block(alloc, m)?;
            add_signals(alloc, &own, place.as_slice(), names.as_slice(), scene, out)
        }
        Named::Active(all, _) => add_active(alloc, m, all, scene, out),
        Named::Tested(all, _) => {
            let own = scene.block(alloc, m)?;
            add_guards(alloc, &own, m.saturating_sub(1), all, scene, out)
        }
    }
}

/// The blocks.
pub fn add_blocks<C: CasePlaces>(
    alloc: Global,
    first: u32,
    all: &List<Named>,
    scene: &Scene<C>,
    out: &mut List<Pair>,
) -> Result<(), NoMemory>
    requires { first + length all.now < 2 ^ 32 }
    ensures { OnOk result (out.new ≡ out.old ++ spec.blocks_pairs C.place scene.now first all.now) }
{
    let names = all.as_slice();
    for (j, named) in names.iter().enumerate() {
        add_block(alloc, (first as usize + j) as u32, named, scene, out)?;
    }
    Ok(())
}
