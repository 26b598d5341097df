//! Where an equation stands.

ghost use Rattle.std.specs.Prelude.{◌≡◌, ◌++◌, IfOk, OnOk};
ghost use Rattle.scope_rules.specs.Places as spec;

use ls_base::{List, NoMemory, NoteCopy};
use scope_rules::Where;
use std::alloc::Global;

fn add_arms(more: &[(u32, u32)], done: &mut List<(u32, u32)>) -> Result<(), NoMemory>
    ensures { OnOk result (done.new ≡ done.old ++ more.now) }
{
    for arm in more {
        done.push(*arm)?;
    }
    Ok(())
}

/// All arms around a place.
pub fn around(alloc: Global, w: &Where) -> Result<List<(u32, u32)>, NoMemory>
    ensures { IfOk result (λ r. r ≡ spec.around w.now) }
{
    let mut done = w.list.copy(alloc)?;
    add_arms(w.inner.as_slice(), &mut done)?;
    Ok(done)
}

/// The place where nothing is around.
pub fn at_top(alloc: Global) -> Where
    ensures { result ≡ spec.at_top }
{
    Where {
        list: List::new(alloc),
        inner: List::new(alloc),
    }
}

/// In the `do` of an arm, which binds names of the list around the block.
pub fn in_do(alloc: Global, m: u32, j: u32, w: &Where) -> Result<Where, NoMemory>
    ensures { IfOk result (λ r. r ≡ spec.in_do m j w.now) }
{
    let list = w.list.copy(alloc)?;
    let mut inner = w.inner.copy(alloc)?;
    inner.push((m, j))?;
    Ok(Where { list, inner })
}

/// In the `let` of an arm, whose names are local to the arm.
pub fn in_let(alloc: Global, m: u32, j: u32, w: &Where) -> Result<Where, NoMemory>
    ensures { IfOk result (λ r. r ≡ spec.in_let m j w.now) }
{
    let mut list = around(alloc, w)?;
    list.push((m, j))?;
    Ok(Where {
        list,
        inner: List::new(alloc),
    })
}
