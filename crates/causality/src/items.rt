//! The items of a body with their rows.

ghost use Rattle.std.specs.Prelude.{◌≡◌, ◌+◌, ◌<◌, ◌^◌, ◌++◌, length, IfOk, OnOk};
ghost use Rattle.causality.specs.Items as spec;
ghost use Rattle.causality.specs.Nodes.{fits};
ghost use Rattle.causality_rules.specs.Items as rules;

use block_tables::BlockTables;
use ls_base::{List, NoMemory};
use ls_places::{Definition, Key, Named};
use ls_sig::Item;
use std::alloc::Global;

fn add_vars(d: &Definition, out: &mut List<(Item, Key)>) -> Result<(), NoMemory>
    ensures { OnOk result (out.new ≡ out.old ++ spec.var_rows d.now) }
{
    for k in 0..d.places.vars.len() {
        out.push((Item::Var(k as u32), Key::Var(k as u32)))?;
    }
    Ok(())
}

fn add_initials(d: &BlockTables, out: &mut List<(Item, Key)>) -> Result<(), NoMemory>
    ensures { OnOk result (out.new ≡ out.old ++ spec.initial_rows d.now) }
{
    for (k, w) in d.definition().places.vars.as_slice().iter().enumerate() {
        if d.tables().start_of(w).is_some() {
            out.push((Item::Initial(k as u32), Key::Start(k as u32)))?;
        }
    }
    Ok(())
}

fn is_block(named: &Named) -> bool
    ensures { result ≡ rules.is_block named.now }
{
    match named {
        Named::Clock(_) => false,
        Named::Match(_, _, _) => true,
        Named::Present(_, _) => true,
        Named::Active(_, _) => true,
        Named::Tested(_, _) => false,
    }
}

// The items of the clock name `m`, behind `b` blocks.
fn add_named(m: u32, b: u32, named: &Named, out: &mut List<(Item, Key)>) -> Result<(), NoMemory>
    requires { m + 1 < 2 ^ 32 }
    ensures { OnOk result (out.new ≡ out.old ++ spec.named_rows m b named.now) }
{
    match named {
        Named::Clock(_) => Ok(()),
        Named::Match(_, _, _) => out.push((Item::Selector(b), Key::Name(m))),
        Named::Present(_, _) => out.push((Item::Selector(b), Key::Name(m))),
        Named::Active(_, _) => {
            out.push((Item::Active(b), Key::Name(m)))?;
            out.push((Item::Tested(b), Key::Name(m + 1)))
        }
        Named::Tested(_, _) => Ok(()),
    }
}

fn add_blocks(d: &Definition, out: &mut List<(Item, Key)>) -> Result<(), NoMemory>
    requires { fits d.now }
    ensures { OnOk result (out.new ≡ out.old ++ spec.block_rows (length d.now.params) 0 d.now.places.names) }
{
    let first = d.params.len() as u32;
    let mut b = 0;
    for (i, named) in d.places.names.as_slice().iter().enumerate() {
        add_named(first + i as u32, b, named, out)?;
        if is_block(named) {
            b += 1;
        }
    }
    Ok(())
}

/// The items of a body, each with its row.
pub fn item_rows(alloc: Global, d: &BlockTables) -> Result<List<(Item, Key)>, NoMemory>
    requires { fits d.now }
    ensures { IfOk result (λ r. r ≡ spec.item_rows d.now) }
{
    let mut out = List::new(alloc);
    add_vars(d.definition(), &mut out)?;
    add_initials(d, &mut out)?;
    add_blocks(d.definition(), &mut out)?;
    Ok(out)
}
