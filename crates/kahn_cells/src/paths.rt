//! Arms without an equation for a variable.

ghost use Rattle.std.specs.Prelude.{◌≡◌, ◌+◌, ◌++◌, ◌<◌, ◌^◌, IfOk, OnOk};
ghost use Rattle.std.specs.Option.{option_copied};
ghost use Rattle.kahn_cells.specs.Groups as groups;
ghost use Rattle.kahn_cells.specs.Paths as own;
ghost use Rattle.ls_places.specs.Patterns.{joined};
ghost use Rattle.ls_places.specs.Places.{option_list};
ghost use Rattle.ls_places.specs.Search as spec;

use crate::search::{copy_arms, nth};
use ls_base::{List, NoMemory};
use ls_places::{Definition, Named, Site};
use std::alloc::Global;

fn arm_count(named: Option<&Named>) -> usize
    ensures value { result ≡ spec.arm_count (option_copied named.entry) }
    ensures few { result < 2 ^ 32 }
{
    match named {
        Some(Named::Match(_, all, _)) => all.len(),
        Some(Named::Present(all, _)) => all.len() + 1,
        Some(Named::Active(states, _)) => states.len(),
        Some(Named::Clock(_)) => 0,
        Some(Named::Tested(_, _)) => 0,
        None => 0,
    }
}

/// The number of arms of the block with the clock name `m`.
fn count_arms(d: &Definition, m: u32) -> usize
    ensures value { result ≡ own.count_arms d.now m }
    ensures few { result < 2 ^ 32 }
{
    let place = (m as usize).saturating_sub(d.params.len());
    arm_count(nth(d.places.names.as_slice(), place))
}

fn add_path_inside(
    alloc: Global,
    m: u32,
    j: u32,
    path: &[(u32, u32)],
    done: &mut List<List<(u32, u32)>>,
) -> Result<(), NoMemory>
    ensures { OnOk result (done.new ≡ done.old ++ option_list (spec.path_inside (m, j) path.now)) }
{
    match path {
        [] => Ok(()),
        [a, more @ ..] => {
            if a.0 == m && a.1 == j {
                done.push(copy_arms(alloc, more)?)
            } else {
                Ok(())
            }
        }
    }
}

/// What is around equations within an arm, for those that are in it.
fn paths_inside(
    alloc: Global,
    m: u32,
    j: u32,
    all: &[List<(u32, u32)>],
) -> Result<List<List<(u32, u32)>>, NoMemory>
    ensures { IfOk result (λ r. r ≡ spec.paths_inside (m, j) all.now) }
{
    let mut done = List::new(alloc);
    for path in all {
        add_path_inside(alloc, m, j, path.as_slice(), &mut done)?;
    }
    Ok(done)
}

fn any_empty(all: &[List<(u32, u32)>]) -> bool
    ensures { result ≡ own.any_empty all.now }
{
    for path in all {
        if path.len() == 0 {
            return true;
        }
    }
    false
}

fn outer_block(all: &[List<(u32, u32)>]) -> u32
    ensures { result ≡ spec.outer_block all.now }
{
    match all {
        [] => 0,
        [path, ..] => match path.as_slice() {
            [] => 0,
            [a, ..] => a.0,
        },
    }
}

/// Whether one of so many arms of a block lacks an equation.
#[cycle(lacks)]
fn any_arm_lacks(
    alloc: Global,
    d: &Definition,
    depth: usize,
    m: u32,
    paths: &[List<(u32, u32)>],
    count: usize,
) -> Result<bool, NoMemory>
    requires { count < 2 ^ 32 }
    ensures { IfOk result (λ r. r ≡ own.any_arm_lacks d.now depth m paths.now (spec.count_up count 0)) }
{
    for j in 0..count {
        let inside = paths_inside(alloc, m, j as u32, paths)?;
        if lacks_within(alloc, d, depth, inside.as_slice())? {
            return Ok(true);
        }
    }
    Ok(false)
}

/// Whether some arm, of the blocks around these paths, has none of them: looked for at most so
/// many blocks deep.
#[cycle(lacks)]
fn lacks_within(
    alloc: Global,
    d: &Definition,
    depth: usize,
    paths: &[List<(u32, u32)>],
) -> Result<bool, NoMemory>
    ensures { IfOk result (λ r. r ≡ spec.lacks_within d.now depth paths.now) }
{
    if depth == 0 {
        return Ok(true);
    }
    if any_empty(paths) {
        return Ok(false);
    }
    if paths.len() == 0 {
        return Ok(true);
    }
    let m = outer_block(paths);
    let count = count_arms(d, m);
    any_arm_lacks(alloc, d, depth - 1, m, paths, count)
}

fn add_path(path: &[(u32, u32)], done: &mut List<(u32, u32)>) -> Result<(), NoMemory>
    ensures { OnOk result (done.new ≡ done.old ++ path.now) }
{
    for a in path {
        done.push(*a)?;
    }
    Ok(())
}

/// The arms of all these paths.
fn join(alloc: Global, all: &[List<(u32, u32)>]) -> Result<List<(u32, u32)>, NoMemory>
    ensures { IfOk result (λ r. r ≡ joined all.now) }
{
    let mut done = List::new(alloc);
    for path in all {
        add_path(path.as_slice(), &mut done)?;
    }
    Ok(done)
}

/// What is around the sites of these numbers within their lists.
fn site_paths(
    alloc: Global,
    sites: &[Site],
    numbers: &[u32],
) -> Result<List<List<(u32, u32)>>, NoMemory>
    ensures { IfOk result (λ r. r ≡ own.site_paths (groups.picked sites.now numbers.now)) }
{
    let mut done = List::new(alloc);
    for k in numbers {
        if let Some(s) = nth(sites, *k as usize) {
            done.push(copy_arms(alloc, s.inner.as_slice())?)?;
        }
    }
    Ok(done)
}

/// Whether some arm has no equation for a variable that has the sites of these numbers.
pub fn lacks(alloc: Global, d: &Definition, numbers: &[u32]) -> Result<bool, NoMemory>
    ensures { IfOk result (λ r. r ≡ spec.lacks d.now (groups.picked d.now.places.sites numbers.now)) }
{
    let paths = site_paths(alloc, d.places.sites.as_slice(), numbers)?;
    let all = join(alloc, paths.as_slice())?;
    lacks_within(alloc, d, all.len() + 1, paths.as_slice())
}
