//! Arms without an equation for a variable.

ghost use Rattle.std.specs.Prelude.{◌≡◌, ℕ, suc, ◌+◌, ◌*◌, ◌++◌, ◌<◌, ◌≤◌, ◌^◌, IfOk, OnOk, drop, length, map};
ghost use Rattle.std.specs.Option.{option_copied};
ghost use Rattle.ls_places.specs.Search as spec;
ghost use Rattle.place_tables.specs.Groups as groups;
ghost use Rattle.place_tables.specs.Lacks as own;

use crate::groups::group;
use crate::search::nth;
use indexmap::IndexMap;
use ls_base::{List, NoMemory};
use ls_places::{Definition, Named, Site};
use std::alloc::Global;

fn arm_count(named: Option<&Named>) -> usize
    ensures value { result ≡ spec.arm_count (option_copied named.entry) }
    ensures few { result < 2 ^ 32 }
{
    match named {
        Some(Named::Match(_, all, _)) => all.len(),
        Some(Named::Present(all, _)) => all.len() + 1,
        Some(Named::Active(states, _)) => states.len(),
        Some(Named::Clock(_)) => 0,
        Some(Named::Tested(_, _)) => 0,
        None => 0,
    }
}

/// The number of arms of the block with the clock name `m`.
fn count_arms(d: &Definition, m: u32) -> usize
    ensures value { result ≡ own.count_arms d.now m }
    ensures few { result < 2 ^ 32 }
{
    let place = (m as usize).saturating_sub(d.params.len());
    arm_count(nth(d.places.names.as_slice(), place))
}

/// The arm of the site of this number that is the next after the outermost `skip`.
fn arm_at(sites: &[Site], k: u32, skip: usize) -> Option<(u32, u32)>
    ensures { result ≡ own.arm_at sites.now skip k }
{
    match nth(sites, k as usize) {
        None => None,
        Some(s) => nth(s.inner.as_slice(), skip).copied(),
    }
}

/// Whether the site of this number stands in no more arms than the outermost `skip`.
fn ends(sites: &[Site], k: u32, skip: usize) -> bool
    ensures { result ≡ own.ends sites.now skip k }
{
    match nth(sites, k as usize) {
        None => false,
        Some(s) => s.inner.len() <= skip,
    }
}

fn any_ends(sites: &[Site], skip: usize, numbers: &[u32]) -> bool
    ensures { result ≡ own.any_ends sites.now skip numbers.now }
{
    for k in numbers {
        if ends(sites, *k, skip) {
            return true;
        }
    }
    false
}

/// The block of the first next arm.
fn outer_block(sites: &[Site], skip: usize, numbers: &[u32]) -> Option<u32>
    ensures { result ≡ own.first_block sites.now skip numbers.now }
{
    for k in numbers {
        if let Some(arm) = arm_at(sites, *k, skip) {
            return Some(arm.0);
        }
    }
    None
}

/// One more number of an arm.
fn add_number(
    alloc: Global,
    j: u32,
    k: u32,
    groups: &mut IndexMap<u32, List<u32>>,
) -> Result<(), NoMemory>
    ensures { OnOk result (own.AddsNumber groups.old j k groups.new) }
{
    match groups.get_mut(&j) {
        Some(found) => found.push(k),
        None => {
            let mut first = List::new(alloc);
            first.push(k)?;
            match groups.insert(j, first) {
                Ok(_) => Ok(()),
                Err(_) => Err(NoMemory),
            }
        }
    }
}

/// A site, in the arm of a block that it stands in.
fn add_inside(
    alloc: Global,
    sites: &[Site],
    m: u32,
    skip: usize,
    k: u32,
    groups: &mut IndexMap<u32, List<u32>>,
) -> Result<(), NoMemory>
    ensures { OnOk result (own.AddsInside sites.now m skip groups.old k groups.new) }
{
    match arm_at(sites, k, skip) {
        None => Ok(()),
        Some(arm) => {
            if arm.0 == m {
                add_number(alloc, arm.1, k, groups)
            } else {
                Ok(())
            }
        }
    }
}

/// The sites of these numbers that stand in a block, by their arms.
fn by_arms(
    alloc: Global,
    sites: &[Site],
    m: u32,
    skip: usize,
    numbers: &[u32],
) -> Result<IndexMap<u32, List<u32>>, NoMemory>
    ensures { IfOk result (λ r. (j : ℕ) → groups.group r j ≡ own.inside sites.now m skip j numbers.now) }
{
    let mut done = IndexMap::new(alloc);
    for k in numbers {
        add_inside(alloc, sites, m, skip, *k, &mut done)?;
    }
    Ok(done)
}

/// Whether one of so many arms of a block lacks an equation.
#[cycle(lacks)]
fn any_arm_lacks(
    alloc: Global,
    d: &Definition,
    depth: usize,
    m: u32,
    skip: usize,
    numbers: &[u32],
) -> Result<bool, NoMemory>
    requires { suc skip + depth < 2 ^ 64 }
    ensures { IfOk result (λ r. r ≡ own.any_arm_lacks d.now depth m (own.paths d.now.places.sites skip numbers.now) (spec.count_up (own.count_arms d.now m) 0)) }
{
    let sites = d.places.sites.as_slice();
    let count = count_arms(d, m);
    let groups = by_arms(alloc, sites, m, skip, numbers)?;
    for j in 0..count {
        if lacks_within(alloc, d, depth, skip + 1, group(&groups, j as u32))? {
            return Ok(true);
        }
    }
    Ok(false)
}

/// Whether some arm, of the blocks around the sites of these numbers, has none of them. Each of
/// them stands in the same outermost `skip` arms. It is looked for at most so many blocks deep.
#[cycle(lacks)]
fn lacks_within(
    alloc: Global,
    d: &Definition,
    depth: usize,
    skip: usize,
    numbers: &[u32],
) -> Result<bool, NoMemory>
    requires { skip + depth < 2 ^ 64 }
    ensures { IfOk result (λ r. r ≡ spec.lacks_within d.now depth (own.paths d.now.places.sites skip numbers.now)) }
{
    if depth == 0 {
        return Ok(true);
    }
    let sites = d.places.sites.as_slice();
    if any_ends(sites, skip, numbers) {
        return Ok(false);
    }
    match outer_block(sites, skip, numbers) {
        None => Ok(true),
        Some(m) => any_arm_lacks(alloc, d, depth - 1, m, skip, numbers),
    }
}

fn inner_length(sites: &[Site], k: u32) -> usize
    ensures value { result ≡ own.inner_length sites.now k }
    ensures few { result ≤ 4294967295 }
{
    match nth(sites, k as usize) {
        None => 0,
        Some(s) => s.inner.len(),
    }
}

/// The number of arms around the sites of these numbers.
fn all_lengths(sites: &[Site], numbers: &[u32]) -> usize
    requires { length numbers.now ≤ 4294967294 }
    ensures value { result ≡ own.all_lengths sites.now numbers.now }
    ensures few { result + 1 < 2 ^ 64 }
{
    let mut sum = 0;
    for k in numbers {
        sum += inner_length(sites, *k);
    }
    sum
}

/// Whether some arm has no equation for a variable that has the sites of these numbers.
pub fn lacks(alloc: Global, d: &Definition, numbers: &[u32]) -> Result<bool, NoMemory>
    requires { length numbers.now ≤ 4294967294 }
    ensures { IfOk result (λ r. r ≡ spec.lacks d.now (groups.picked d.now.places.sites numbers.now)) }
{
    let all = all_lengths(d.places.sites.as_slice(), numbers);
    lacks_within(alloc, d, all + 1, 0, numbers)
}
