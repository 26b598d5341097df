//! The numbers of items by their keys.

ghost use Rattle.std.specs.Prelude.{◌≡◌, ◌<◌, ◌≤◌, ◌^◌, IfOk, OnOk, length};
ghost use Rattle.place_tables.specs.Groups as own;

use indexmap::IndexMap;
use ls_base::{List, NoMemory};
use std::alloc::Global;

fn ends_with(k: u32, all: &[u32]) -> bool
    ensures { result ≡ own.ends_with k all.now }
{
    match all.last() {
        None => false,
        Some(j) => *j == k,
    }
}

/// The numbers of the items with a key.
pub fn group(groups: &IndexMap<u32, List<u32>>, x: u32) -> &[u32]
    ensures value { result.now ≡ own.group groups.now x }
    ensures few { length result.now ≤ 4294967294 }
{
    match groups.get(&x) {
        None => &[],
        Some(found) => found.as_slice(),
    }
}

/// One more item with a key. It may be the last that has it already.
fn add_item(
    alloc: Global,
    x: u32,
    k: u32,
    groups: &mut IndexMap<u32, List<u32>>,
) -> Result<(), NoMemory>
    ensures { OnOk result (own.AddsItem groups.old x k groups.new) }
{
    match groups.get_mut(&x) {
        Some(found) => {
            if !ends_with(k, found.as_slice()) {
                found.push(k)?;
            }
            Ok(())
        }
        None => {
            let mut first = List::new(alloc);
            first.push(k)?;
            match groups.insert(x, first) {
                Ok(_) => Ok(()),
                Err(_) => Err(NoMemory),
            }
        }
    }
}

/// One more item, with these keys.
fn add_keys(
    alloc: Global,
    keys: &[u32],
    k: u32,
    groups: &mut IndexMap<u32, List<u32>>,
) -> Result<(), NoMemory>
    ensures { OnOk result (own.AddsKeys groups.old keys.now k groups.new) }
{
    for x in keys {
        add_item(alloc, *x, k, groups)?;
    }
    Ok(())
}

/// The numbers of items, by the keys of each.
pub fn grouped(alloc: Global, keys: &[List<u32>]) -> Result<IndexMap<u32, List<u32>>, NoMemory>
    requires { length keys.now < 2 ^ 32 }
    ensures { IfOk result (λ r. own.AreGroups r keys.now) }
{
    let mut done = IndexMap::new(alloc);
    let mut k = 0;
    for of_item in keys {
        add_keys(alloc, of_item.as_slice(), k, &mut done)?;
        k += 1;
    }
    Ok(done)
}
