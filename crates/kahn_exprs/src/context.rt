//! What is around a body, with a cell for each line.

ghost use Rattle.std.specs.Prelude.{◌≡◌, ◌++◌, IfOk, OnOk};
ghost use Rattle.kahn_exprs.specs.Context as around;
ghost use Rattle.kahn_exprs.specs.Given as own;
ghost use Rattle.kahn_model.specs.Functions.{give_args};

use kahn_cells::cells::copy_known;
use kahn_model::Cell;
use ls_base::{Boxed, List, NoMemory, NoteCopy};
use std::alloc::Global;

/// What stands for a parameter.
#[derive(Debug, Drop)]
pub enum Argument {
    /// A stream, with a cell for each line.
    Stream(List<Option<Cell>>),
    /// The definition of this number, with the rows of the clock variables of its signature.
    Function(u32, List<(u32, List<Option<bool>>)>),
    /// The definition of this number, passed as a pointwise function, which has no clock of its own.
    Pointwise(u32),
    /// A function value, and one more argument.
    Given(Boxed<Argument>, Boxed<Argument>),
}

/// Where the clock variables of a signature are on.
#[derive(Debug, Drop)]
pub enum Clocks {
    /// Each of these variables has its row, and no other is on.
    Each(List<(u32, List<Option<bool>>)>),
    /// All variables have this row.
    All(List<Option<bool>>),
}

/// What is around a body: where its place is active, where it restarts, where the clock variables
/// of its signature are on, and what stands for its parameters. Each row has a cell for each line.
#[derive(Debug, Drop)]
pub struct Context {
    pub active: List<Option<bool>>,
    pub again: List<Option<bool>>,
    pub clocks: Clocks,
    pub args: List<Argument>,
}

/// A copy of a row.
pub fn copy_cells(alloc: Global, cells: &[Option<Cell>]) -> Result<List<Option<Cell>>, NoMemory>
    ensures { IfOk result (λ r. r ≡ cells.now) }
{
    let mut done = List::new(alloc);
    for c in cells {
        done.push(copy_known(alloc, c.as_ref())?)?;
    }
    Ok(done)
}

/// A copy of what stands for a parameter.
pub fn copy_argument(alloc: Global, arg: &Argument) -> Result<Argument, NoMemory>
    ensures { IfOk result (λ r. r ≡ arg.now) }
{
    match arg {
        Argument::Stream(cells) => Ok(Argument::Stream(copy_cells(alloc, cells.as_slice())?)),
        Argument::Function(k, rows) => { Ok(Argument::Function(*k, rows.copy(alloc)?)) }
        Argument::Pointwise(k) => Ok(Argument::Pointwise(*k)),
        Argument::Given(f, x) => Ok(Argument::Given(
            Boxed::new(alloc, copy_argument(alloc, f.get())?)?,
            Boxed::new(alloc, copy_argument(alloc, x.get())?)?,
        )),
    }
}

/// Copies of some arguments after those that are there.
pub fn add_arguments(
    alloc: Global,
    args: &[Argument],
    done: &mut List<Argument>,
) -> Result<(), NoMemory>
    ensures { OnOk result (done.new ≡ done.old ++ args.now) }
{
    for arg in args {
        done.push(copy_argument(alloc, arg)?)?;
    }
    Ok(())
}

/// The function of a function value without the arguments that it was given.
pub fn base(f: &Argument) -> &Argument
    ensures { around.arg_of result.now ≡ own.base_of (around.arg_of f.now) }
{
    match f {
        Argument::Given(g, _) => base(g.get()),
        Argument::Stream(_) => f,
        Argument::Function(_, _) => f,
        Argument::Pointwise(_) => f,
    }
}

/// Copies of the arguments that a function value was given, the first one first.
pub fn add_given(alloc: Global, f: &Argument, done: &mut List<Argument>) -> Result<(), NoMemory>
    ensures { OnOk result (around.args_of done.new ≡ around.args_of done.old ++ own.given_to (around.arg_of f.now)) }
{
    match f {
        Argument::Given(g, x) => {
            add_given(alloc, g.get(), done)?;
            done.push(copy_argument(alloc, x.get())?)?;
            Ok(())
        }
        Argument::Stream(_) => Ok(()),
        Argument::Function(_, _) => Ok(()),
        Argument::Pointwise(_) => Ok(()),
    }
}

/// A function value with more arguments.
pub fn give(alloc: Global, f: Argument, args: &[Argument]) -> Result<Argument, NoMemory>
    ensures { IfOk result (λ r. around.arg_of r ≡ give_args (around.arg_of f) (around.args_of args.now)) }
{
    let mut more = f;
    for arg in args {
        let x = Boxed::new(alloc, copy_argument(alloc, arg)?)?;
        more = Argument::Given(Boxed::new(alloc, more)?, x);
    }
    Ok(more)
}
