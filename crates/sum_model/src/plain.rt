ghost use Rattle.std.specs.Prelude.{◌≡◌, ◌<◌, length, IfOk};
ghost use Rattle.sum_model.specs.RunningSum.{fby, given, network, row_in, row_of, turn};

use crate::{RunningSum, Stream};
use std::alloc::{AllocError, Global};

/// The cells of the result at the instants of the inputs, by as many turns over whole rows as
/// there are inputs. The time grows with the square of their number.
pub fn rows(alloc: Global, body: RunningSum, inputs: &[i64]) -> Result<Vec<Option<i64>>, AllocError>
    ensures count { IfOk result (λ rows. length rows.items ≡ length inputs.now) }
    ensures cells { IfOk result (λ rows. row_in rows.items ≡ network body inputs.now) }
{
    let mut table = vec![in alloc; None; inputs.len()]?;
    for _turn in 0..inputs.len() {
        table = next_table(alloc, body, inputs, &table)?;
    }
    match body.result {
        Stream::Sum => Ok(table),
        Stream::Param => known(alloc, inputs),
    }
}

/// The row of the parameter.
fn known(alloc: Global, inputs: &[i64]) -> Result<Vec<Option<i64>>, AllocError>
    ensures count { IfOk result (λ row. length row.items ≡ length inputs.now) }
    ensures cells { IfOk result (λ row. row_in row.items ≡ given inputs.now) }
{
    let mut row = Vec::new(alloc);
    for x in inputs {
        row.push(Some(*x))?;
    }
    Ok(row)
}

/// One turn: every cell anew from the table before it.
fn next_table(
    alloc: Global,
    body: RunningSum,
    inputs: &[i64],
    table: &[Option<i64>],
) -> Result<Vec<Option<i64>>, AllocError>
    requires { length table.now ≡ length inputs.now }
    ensures count { IfOk result (λ next. length next.items ≡ length inputs.now) }
    ensures cells { IfOk result (λ next. row_in next.items ≡ turn body inputs.now (row_in table.now)) }
{
    let mut next = Vec::new(alloc);
    for i in 0..inputs.len() {
        next.push(next_cell(body, inputs, table, i))?;
    }
    Ok(next)
}

fn next_cell(body: RunningSum, inputs: &[i64], table: &[Option<i64>], i: usize) -> Option<i64>
    requires within { i < length inputs.now }
    requires count { length table.now ≡ length inputs.now }
    ensures { result ≡ turn body inputs.now (row_in table.now) i }
{
    let x = inputs[i];
    delayed_cell(body, inputs, table, i).map(|y| x.wrapping_add(y))
}

/// The cell of the delay at an instant.
fn delayed_cell(body: RunningSum, inputs: &[i64], table: &[Option<i64>], i: usize) -> Option<i64>
    requires within { i < length inputs.now }
    requires count { length table.now ≡ length inputs.now }
    ensures { result ≡ fby body.first (row_of body.delayed (given inputs.now) (row_in table.now)) i }
{
    if i == 0 {
        return Some(body.first);
    }
    match body.delayed {
        Stream::Param => Some(inputs[i - 1]),
        Stream::Sum => table[i - 1],
    }
}
