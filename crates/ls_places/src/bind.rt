//! Equations with the names that they bind, and expressions that are read.

ghost use Rattle.std.specs.Prelude.{◌≡◌, ◌≤◌, ◌<◌, ◌^◌, ◌∷◌, [], ◌++◌, OnOk, IfOk, length, map, option_map, slice_set};
ghost use Rattle.ls_places.specs.Patterns.{joined, names_of};
ghost use Rattle.ls_places.specs.Built.{built};
ghost use Rattle.ls_places.specs.Places as spec;

use crate::around::{Where, arms};
use crate::places::{Frame, Named, Places, Right, Site, Start, Transition, Variable, Whole};
use crate::vars::Variables;
use ls_ast::{Expr, Pat};
use ls_base::{List, NoMemory, NoteCopy};
use std::alloc::Global;

/// What a walk has found so far. The names of an automaton are empty until all its guards are
/// known.
#[derive(Drop)]
pub struct PlacesBuilder<N> {
    vars: Variables,
    sites: List<Site>,
    starts: List<Start>,
    names: Vec<Named>,
    resets: List<u32>,
    exprs: List<Whole<N>>,
}

impl<N> PlacesBuilder<N> {
    pub fn new(alloc: Global) -> PlacesBuilder<N>
        ensures { built result ≡ spec.nothing N }
    {
        PlacesBuilder {
            vars: Variables::new(alloc),
            sites: List::new(alloc),
            starts: List::new(alloc),
            names: Vec::new(alloc),
            resets: List::new(alloc),
            exprs: List::new(alloc),
        }
    }

    /// The number of clock names.
    pub fn name_count(&self) -> usize
        ensures { result ≡ length self.now.names.items }
    {
        self.names.len()
    }

    /// The number of conditions of `reset`.
    pub fn reset_count(&self) -> usize
        ensures value { result ≡ length self.now.resets }
        ensures few { result ≤ 4294967294 }
    {
        self.resets.len()
    }

    /// The number of the next whole expression.
    pub fn next_expr(&self) -> u32
        ensures { result ≡ spec.next_expr N (built self.now) }
    {
        self.exprs.len() as u32
    }
}

impl<N: Drop> PlacesBuilder<N> {
    pub fn into_variables(self) -> Variables
        ensures { result ≡ self.vars }
    {
        self.vars
    }

    pub fn finish(self, alloc: Global) -> Result<Places<N>, NoMemory>
        ensures { IfOk result (λ r. r ≡ built self) }
    {
        let PlacesBuilder {
            vars,
            sites,
            starts,
            names,
            resets,
            exprs,
        } = self;
        Ok(Places {
            vars: vars.into_list(),
            sites,
            starts,
            names: listed(alloc, names)?,
            resets,
            exprs,
        })
    }
}

/// The items of a vector as a list.
fn listed(alloc: Global, items: Vec<Named>) -> Result<List<Named>, NoMemory>
    ensures { IfOk result (λ r. r ≡ items.items) }
{
    let mut done = List::new(alloc);
    for item in items {
        done.push(item)?;
    }
    Ok(done)
}

#[cycle(names)]
fn add_all_names(all: &[Pat], done: &mut List<u32>) -> Result<(), NoMemory>
    ensures { OnOk result (done.new ≡ done.old ++ joined (map names_of all.now)) }
{
    for pat in all {
        add_names(pat, done)?;
    }
    Ok(())
}

#[cycle(names)]
fn add_names(pat: &Pat, done: &mut List<u32>) -> Result<(), NoMemory>
    ensures { OnOk result (done.new ≡ done.old ++ names_of pat.now) }
{
    match pat {
        Pat::Any => Ok(()),
        Pat::Unit => Ok(()),
        Pat::Var(name) => {
            done.push(name.0)?;
            Ok(())
        }
        Pat::Tuple(parts) => add_all_names(parts.as_slice(), done),
    }
}

/// The names that a pattern binds, in the order of the text.
fn names_in(alloc: Global, pat: &Pat) -> Result<List<u32>, NoMemory>
    ensures { IfOk result (λ r. r ≡ names_of pat.now) }
{
    let mut done = List::new(alloc);
    add_names(pat, &mut done)?;
    Ok(done)
}

/// One more name of an equation, which is a new variable where its list has not bound it before.
fn bind(
    alloc: Global,
    x: u32,
    signal: bool,
    w: &Where,
    vars: &mut Variables,
    numbers: &mut List<u32>,
) -> Result<(), NoMemory>
    ensures { OnOk result ((vars.new, numbers.new) ≡ spec.bind x signal w.now (vars.old, numbers.old)) }
{
    let list = arms(alloc, w.spot().as_slice())?;
    match vars.place_of(alloc, x, list.as_slice())? {
        Some(k) => numbers.push(k),
        None => {
            numbers.push(vars.len() as u32)?;
            let place = w.spot().copy(alloc)?;
            let variable = Variable {
                name: x,
                list,
                place,
                signal,
            };
            vars.add(alloc, variable)
        }
    }
}

/// The names of an equation: the numbers of its variables.
fn bind_all(
    alloc: Global,
    names: &[u32],
    signal: bool,
    w: &Where,
    vars: &mut Variables,
) -> Result<List<u32>, NoMemory>
    ensures { IfOk result (λ r. (vars.new, r) ≡ spec.bind_all names.now signal w.now (vars.old, [])) }
{
    let mut numbers = List::new(alloc);
    for x in names {
        bind(alloc, *x, signal, w, vars, &mut numbers)?;
    }
    Ok(numbers)
}

/// One more equation, which binds these names.
fn site_at<N>(
    alloc: Global,
    names: &[u32],
    signal: bool,
    right: Right,
    w: &Where,
    found: &mut PlacesBuilder<N>,
) -> Result<(), NoMemory>
    ensures { OnOk result (built found.new ≡ spec.site_at N names.now signal right w.now (built found.old)) }
{
    let vars = bind_all(alloc, names, signal, w, &mut found.vars)?;
    let place = w.place.copy(alloc)?;
    let inner = w.inner.copy(alloc)?;
    found.sites.push(Site {
        vars,
        right,
        place,
        inner,
    })
}

/// One more whole expression.
pub fn reading<N: NoteCopy>(
    alloc: Global,
    e: &Expr<N>,
    place: &List<Frame>,
    found: &mut PlacesBuilder<N>,
) -> Result<(), NoMemory>
    ensures { OnOk result (built found.new ≡ spec.reading N e.now place.now (built found.old)) }
{
    let expr = e.copy(alloc)?;
    let place = place.copy(alloc)?;
    found.exprs.push(Whole { expr, place })
}

/// One more clock name.
pub fn naming<N>(named: Named, found: &mut PlacesBuilder<N>) -> Result<(), NoMemory>
    ensures { OnOk result (built found.new ≡ spec.naming N named (built found.old)) }
{
    match found.names.push(named) {
        Ok(()) => Ok(()),
        Err(_) => Err(NoMemory),
    }
}

/// The equation `pat = e`.
pub fn plain_at<N: NoteCopy>(
    alloc: Global,
    pat: &Pat,
    signal: bool,
    e: &Expr<N>,
    w: &Where,
    found: &mut PlacesBuilder<N>,
) -> Result<(), NoMemory>
    ensures { OnOk result (built found.new ≡ spec.plain_at N pat.now signal e.now w.now (built found.old)) }
{
    let right = Right::Part(pat.copy(alloc)?, found.next_expr());
    reading(alloc, e, &w.place, found)?;
    let names = names_in(alloc, pat)?;
    site_at(alloc, names.as_slice(), signal, right, w, found)
}

/// The equation `clock x = e` or `emit x = e`.
pub fn whole_at<N: NoteCopy>(
    alloc: Global,
    x: u32,
    signal: bool,
    e: &Expr<N>,
    w: &Where,
    found: &mut PlacesBuilder<N>,
) -> Result<(), NoMemory>
    ensures { OnOk result (built found.new ≡ spec.whole_at N x signal e.now w.now (built found.old)) }
{
    let right = Right::Whole(found.next_expr());
    reading(alloc, e, &w.place, found)?;
    site_at(alloc, &[x], signal, right, w, found)
}

/// The pattern of a test of a `present`, on the signal of the name s.
pub fn bind_pattern<N>(
    alloc: Global,
    s: u32,
    pat: &Option<Pat>,
    w: &Where,
    found: &mut PlacesBuilder<N>,
) -> Result<(), NoMemory>
    ensures { OnOk result (built found.new ≡ spec.bind_pattern N s pat.now w.now (built found.old)) }
{
    match pat {
        None => Ok(()),
        Some(pat) => {
            let right = Right::Pattern(s, pat.copy(alloc)?);
            let names = names_in(alloc, pat)?;
            site_at(alloc, names.as_slice(), false, right, w, found)
        }
    }
}

/// The clock name of `clock x = ..`.
pub fn clock_at<N>(
    alloc: Global,
    x: u32,
    w: &Where,
    found: &mut PlacesBuilder<N>,
) -> Result<(), NoMemory>
    ensures { OnOk result (built found.new ≡ spec.clock_at N x w.now (built found.old)) }
{
    let list = arms(alloc, w.spot().as_slice())?;
    let var = match found.vars.place_of(alloc, x, list.as_slice())? {
        Some(k) => k,
        None => 0,
    };
    naming(Named::Clock(var), found)
}

/// The initial equation `last x = e`.
pub fn start_at<N: NoteCopy>(
    alloc: Global,
    x: u32,
    e: &Expr<N>,
    w: &Where,
    found: &mut PlacesBuilder<N>,
) -> Result<(), NoMemory>
    ensures { OnOk result (built found.new ≡ spec.start_at N x e.now w.now (built found.old)) }
{
    let list = arms(alloc, w.spot().as_slice())?;
    let right = found.next_expr();
    found.starts.push(Start {
        name: x,
        list,
        right,
    })?;
    reading(alloc, e, &w.place, found)
}

/// One more `reset`, and its condition.
pub fn open_reset<N: NoteCopy>(
    alloc: Global,
    e: &Expr<N>,
    w: &Where,
    found: &mut PlacesBuilder<N>,
) -> Result<(), NoMemory>
    ensures { OnOk result (built found.new ≡ spec.open_reset N e.now w.now (built found.old)) }
{
    let cond = found.next_expr();
    found.resets.push(cond)?;
    reading(alloc, e, &w.place, found)
}

/// The guards of the states of an automaton, each state by its name.
#[derive(Debug, Drop)]
pub struct Modes {
    pub strong: List<(u32, List<Transition>)>,
    pub weak: List<(u32, List<Transition>)>,
}

/// The two names of an automaton, before its guards are known.
pub fn open_modes<N>(alloc: Global, w: &Where, found: &mut PlacesBuilder<N>) -> Result<(), NoMemory>
    ensures { OnOk result (built found.new ≡ spec.open_modes N w.now.place (built found.old)) }
{
    naming(Named::Active(List::new(alloc), w.place.copy(alloc)?), found)?;
    naming(Named::Tested(List::new(alloc), w.place.copy(alloc)?), found)
}

/// The name of this place among the names anew.
fn rename<N>(k: usize, named: Named, found: &mut PlacesBuilder<N>)
    ensures { built found.new ≡ record (built found.old) { names = slice_set found.old.names.items k named } }
{
    if k < found.names.len() {
        found.names[k] = named;
    }
}

/// The two names of an automaton, once its guards are known. The first has this place among the
/// names.
pub fn close_modes<N>(
    alloc: Global,
    k: usize,
    modes: Modes,
    w: &Where,
    found: &mut PlacesBuilder<N>,
) -> Result<(), NoMemory>
    requires { k < 2 ^ 32 }
    ensures { OnOk result (built found.new ≡ spec.close_modes N k modes.strong modes.weak w.now.place (built found.old)) }
{
    let Modes { strong, weak } = modes;
    rename(k, Named::Active(strong, w.place.copy(alloc)?), found);
    rename(k + 1, Named::Tested(weak, w.place.copy(alloc)?), found);
    Ok(())
}
