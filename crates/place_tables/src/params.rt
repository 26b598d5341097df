//! The names of parameters.

ghost use Rattle.std.specs.Prelude.{◌≡◌, ◌++◌, IfOk, OnOk, map};
ghost use Rattle.ls_places.specs.Patterns.{joined, names_of};
ghost use Rattle.place_tables.specs.Tables as own;

use ls_ast::Pat;
use ls_base::{List, NoMemory};
use std::alloc::Global;

#[cycle(names)]
fn add_all_names(all: &[Pat], done: &mut List<u32>) -> Result<(), NoMemory>
    ensures { OnOk result (done.new ≡ done.old ++ joined (map names_of all.now)) }
{
    for p in all {
        add_names(p, done)?;
    }
    Ok(())
}

#[cycle(names)]
fn add_names(pat: &Pat, done: &mut List<u32>) -> Result<(), NoMemory>
    ensures { OnOk result (done.new ≡ done.old ++ names_of pat.now) }
{
    match pat {
        Pat::Any => Ok(()),
        Pat::Unit => Ok(()),
        Pat::Var(name) => done.push(name.0),
        Pat::Tuple(all) => add_all_names(all.as_slice(), done),
    }
}

fn names(alloc: Global, pat: &Pat) -> Result<List<u32>, NoMemory>
    ensures { IfOk result (λ r. r ≡ names_of pat.now) }
{
    let mut done = List::new(alloc);
    add_names(pat, &mut done)?;
    Ok(done)
}

/// The names of each parameter.
pub fn param_keys(alloc: Global, all: &[Pat]) -> Result<List<List<u32>>, NoMemory>
    ensures { IfOk result (λ r. r ≡ own.param_keys all.now) }
{
    let mut done = List::new(alloc);
    for p in all {
        done.push(names(alloc, p)?)?;
    }
    Ok(done)
}
