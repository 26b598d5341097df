//! The meaning of a definition, by the call depth left.

ghost use Rattle.std.specs.Prelude.{◌≡◌, ◌-◌, ◌<◌, IfOk};
ghost use Rattle.kahn_exprs.specs.Body as spec;
ghost use Rattle.kahn_exprs.specs.Context as around;
ghost use Rattle.ls_places.specs.Definitions.{case_place};
ghost use Rattle.kahn_model.specs.Table as rows;
ghost use Rattle.kahn_plain.specs.Calls.{Serves};
ghost use Rattle.kahn_plain.specs.Turns as own;

use crate::equations::unknown_row;
use crate::turns::table;
use kahn_cells::search::nth;
use kahn_cells::{Constructors, Prepared};
use kahn_exprs::{Alarms, Body, Calls, Context, Rows, row};
use kahn_model::Cell;
use ls_base::{List, NoMemory};
use std::alloc::Global;

/// Answers calls by a function: with rows, or with alarms.
#[derive(Drop)]
pub struct Level<F> {
    pub call: F,
}

impl<F: Fn(u32, Context) -> Result<List<Option<Cell>>, NoMemory>> Calls for Level<F> {
    ghost use Rattle.kahn_exprs.specs.Body as spec;
    ghost use Rattle.kahn_plain.specs.Calls.{Answers};

    ghost can = { λ l b. F.IsAlwaysCallable l.call × Answers b.lines (spec.call b) (F.post l.call) };

    fn answer(
        &self,
        _alloc: Global,
        _body: &Body,
        k: u32,
        context: Context,
    ) -> Result<List<Option<Cell>>, NoMemory> {
        (self.call)(k, context)
    }
}

impl<F: Fn(u32, Context) -> Result<List<Option<Cell>>, NoMemory>> Alarms for Level<F> {
    ghost use Rattle.kahn_exprs.specs.Body as spec;
    ghost use Rattle.kahn_plain.specs.Calls.{Answers};

    ghost can = { λ l b. F.IsAlwaysCallable l.call × Answers b.lines (spec.alarmed b) (F.post l.call) };

    fn answer(
        &self,
        _alloc: Global,
        _body: &Body,
        k: u32,
        context: Context,
    ) -> Result<List<Option<Cell>>, NoMemory> {
        (self.call)(k, context)
    }
}

/// The row of the result of a body: by its table.
fn result_row<C: Calls>(
    alloc: Global,
    body: &Body,
    call: &C,
) -> Result<List<Option<Cell>>, NoMemory>
    requires can { Serves (C.can call.now) body.now }
    requires numbers { own.AreNumbered body.now.def.now }
    ensures { IfOk result (λ r. r ≡ rows.written_row body.now.lines 0 (own.result body.now)) }
{
    let known = table(alloc, body, call)?;
    let full = Body {
        rows: &known,
        ..*body
    };
    row(alloc, &full, call, &[], &body.def.definition().result)
}

/// The row of the result of the definition `k` in a context, as the network of streams gives it,
/// with a cell for each line. Calls nest at most `depth` deep, this one counted.
pub fn meaning(
    alloc: Global,
    file: &Constructors,
    defs: &[Prepared],
    lines: u32,
    depth: u32,
    k: u32,
    context: Context,
) -> Result<List<Option<Cell>>, NoMemory>
    requires { own.AllNumbered defs.now }
    ensures { IfOk result (λ r. r ≡ rows.written_row lines 0 (rows.meaning (case_place file.now) defs.now lines depth k (around.around_of context))) }
{
    if depth == 0 {
        return unknown_row(alloc, lines);
    }
    match nth(defs, k as usize) {
        None => unknown_row(alloc, lines),
        Some(def) => {
            let below = |j: u32, c: Context| -> Result<List<Option<Cell>>, NoMemory>
                requires deep { 0 < depth }
                requires numbers { own.AllNumbered defs.now }
                ensures { IfOk result (λ r. r ≡ rows.written_row lines 0 (rows.meaning (case_place file.entry.now) defs.entry.now lines (depth - 1) j (around.around_of c))) }
            { meaning(alloc, &*file, &*defs, lines, depth - 1, j, c) };
            let level = Level { call: below };
            let rows = Rows::unknown(alloc, def.definition(), 0)?;
            let body = Body {
                file: &*file,
                defs: &*defs,
                lines,
                depth: depth - 1,
                def,
                context: &context,
                rows: &rows,
            };
            result_row(alloc, &body, &level)
        }
    }
}
