//! The machine of a running sum: one integer of memory, one step for each line.
ghost use Rattle.std.specs.Prelude.{◌≡◌, ◌+◌, All, IfOk, length};
ghost use Rattle.line_io.specs.Rows.{IsWritable};
ghost use Rattle.run_text.specs.declared.machine.Stepped.{Stepped};
ghost use Rattle.sum_model.specs.RunningSum as spec;
ghost use Rattle.sum_model.specs.Running.{int_form, int_in, int_row, memory_next, node_of, node_on, result_at};

use crate::{RunningSum, Stream};
use line_io::{Cell, Field, InputForm, Inputs, OutRow};
use ls_base::{List, Names, NoMemory, Steps};
use ls_value::{Leaf, Shape};
use run_text::{LineMachine, Stepped};
use std::alloc::Global;
use std::marker::Model;
use std::sync::ledger::Ledger;

/// A running sum with the one integer that its delay keeps from step to step. A step takes no
/// memory.
#[derive(Debug, Drop)]
pub struct Machine {
    body: RunningSum,
    form: InputForm,
    memory: i64,
    row: OutRow,
}

impl Model for Machine {
    ghost use Rattle.sum_model.specs.Running.{Running};
    ghost use Rattle.sum_model.specs.Inside.{IsRunning};

    ghost Value = { Running };

    ghost view = { λ m. record { body = m.body; memory = m.memory; row = m.row } };

    ghost invariant = { IsRunning };
}

/// The form of a line that has one field, an integer.
fn one_integer(alloc: Global) -> Result<InputForm, NoMemory>
    ensures { IfOk result (λ form. form ≡ int_form) }
{
    let mut fields = List::new(alloc);
    fields.push(Field {
        shape: Shape::Int,
        on: List::new(alloc),
        signal: None,
    })?;
    Ok(InputForm {
        fields,
        cases: List::new(alloc),
        names: Names::new(alloc),
    })
}

/// The integer in the first cell.
fn first_int(inputs: &Inputs) -> i64
    ensures { result ≡ int_in inputs.now }
{
    match inputs.get(0) {
        Some(Cell::Leaf(Leaf::Int(value))) => value,
        _ => 0,
    }
}

fn value_of(stream: Stream, param: i64, sum: i64) -> i64
    ensures { result ≡ spec.value_of stream param sum }
{
    match stream {
        Stream::Param => param,
        Stream::Sum => sum,
    }
}

impl Machine {
    /// The machine before its first step: what it answers is the network of the body.
    pub fn new(alloc: Global, body: RunningSum) -> Result<Machine, NoMemory>
        ensures { IfOk result (λ machine. node_on machine.body machine.memory ≡ node_of body) }
    {
        Ok(Machine {
            body,
            form: one_integer(alloc)?,
            memory: body.first,
            row: OutRow::new(alloc, 1)?,
        })
    }

    /// One instant: takes the input, and makes the row.
    fn advance(&mut self, input: i64)
        ensures body { self.new.body ≡ self.old.body }
        ensures memory { self.new.memory ≡ memory_next self.old.body self.old.memory input }
        ensures row { self.new.row ≡ int_row (result_at self.old.body self.old.memory input) }
    {
        let sum = input.wrapping_add(self.memory);
        self.memory = value_of(self.body.delayed, input, sum);
        let value = value_of(self.body.result, input, sum);
        self.row.set(0, Cell::Leaf(Leaf::Int(value)));
    }

    /// The form of its lines, of input and of output.
    fn line_form(&self) -> &InputForm
        ensures { result.now ≡ int_form }
    {
        &self.form
    }

    /// The row of the last step.
    fn last_row(&self) -> &OutRow
        ensures { result.now ≡ self.now.row }
    {
        &self.row
    }
}

impl LineMachine for Machine {
    ghost use Rattle.sum_model.specs.Running.{node_on};

    ghost node = { λ m. node_on m.body m.memory };

    ghost shown = { λ m. m.row };

    fn form(&self) -> &InputForm {
        self.line_form()
    }

    fn step<L: Ledger>(&mut self, inputs: &Inputs, steps: &mut Steps<L>) -> Stepped {
        steps.tick();
        self.advance(first_int(inputs));
        Stepped::Done
    }

    fn row(&self) -> &OutRow {
        self.last_row()
    }
}
