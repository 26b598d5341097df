//! Copies of equations.

ghost use Rattle.std.specs.Prelude.{◌≡◌, IfOk};

use crate::{CoreEq, CoreRight};
use ls_base::{List, NoMemory, NoteCopy};
use ls_value::Leaf;
use std::alloc::Global;

fn copy_clock(clock: &[(u32, Leaf)], alloc: Global) -> Result<List<(u32, Leaf)>, NoMemory>
    ensures { IfOk result (λ copy. copy ≡ clock.now) }
{
    let mut done = List::new(alloc);
    for (var, leaf) in clock {
        done.push((*var, *leaf))?;
    }
    Ok(done)
}

fn copy_branches(branches: &[(Leaf, u32)], alloc: Global) -> Result<List<(Leaf, u32)>, NoMemory>
    ensures { IfOk result (λ copy. copy ≡ branches.now) }
{
    let mut done = List::new(alloc);
    for (leaf, var) in branches {
        done.push((*leaf, *var))?;
    }
    Ok(done)
}

impl NoteCopy for CoreRight {
    fn copy(&self, alloc: Global) -> Result<CoreRight, NoMemory> {
        let copy = match self {
            CoreRight::Const(leaf) => CoreRight::Const(*leaf),
            CoreRight::Copy(a) => CoreRight::Copy(*a),
            CoreRight::Op(op, args) => CoreRight::Op(*op, args.copy(alloc)?),
            CoreRight::Pre(a) => CoreRight::Pre(*a),
            CoreRight::Fby(a, b) => CoreRight::Fby(*a, *b),
            CoreRight::Init(a, b) => CoreRight::Init(*a, *b),
            CoreRight::Sample(a) => CoreRight::Sample(*a),
            CoreRight::Choose(c, branches) => {
                CoreRight::Choose(*c, copy_branches(branches.as_slice(), alloc)?)
            }
        };
        Ok(copy)
    }
}

impl NoteCopy for CoreEq {
    fn copy(&self, alloc: Global) -> Result<CoreEq, NoMemory> {
        Ok(CoreEq {
            var: self.var,
            shape: self.shape,
            clock: copy_clock(self.clock.as_slice(), alloc)?,
            restarts: self.restarts.copy(alloc)?,
            rank: self.rank,
            right: self.right.copy(alloc)?,
        })
    }
}
