//! The machine.

ghost use Rattle.std.specs.Prelude.{◌≡◌, ◌≢◌, ◌+◌, All, IfOk, length, map};
ghost use Rattle.line_io.specs.Cells.{Fits};
ghost use Rattle.line_io.specs.Rows.{IsWritable};
ghost use Rattle.run_text.specs.declared.machine.Stepped.{Stepped};
ghost use Rattle.run_text.specs.Machine.{stepped};
ghost use Rattle.step_code.specs.Shapes as shapes;
ghost use Rattle.step_code.specs.Steps as steps_of;
ghost use Rattle.step_code.specs.declared.parts.Slot.{Slot};
ghost use Rattle.step_runner.specs.Running.{alarm_in, later};

use crate::inputs::set_inputs;
use crate::lines::{Window, run_list};
use crate::rows::set_row;
use line_io::{Field, InputForm, Inputs, OutRow};
use ls_base::{List, NoMemory, NoteCopy, Steps};
use ls_value::{Leaf, Shape};
use run_text::{AlarmKind, LineMachine, Stepped};
use std::alloc::Global;
use std::marker::Model;
use std::sync::ledger::Ledger;
use step_code::{Code, InLine, Slot, SlotKind};

/// A machine that evaluates step code. Its slots stand in one vector, which never grows, and a
/// step takes no memory.
#[derive(Debug, Drop)]
pub struct Machine {
    code: Code,
    form: InputForm,
    slots: Vec<Leaf>,
    row: OutRow,
}

impl Model for Machine {
    ghost use Rattle.step_runner.specs.Running.{Running};
    ghost use Rattle.step_runner.specs.Inside.{IsRunning};

    ghost Value = { Running };

    ghost view = { λ m. record { code = m.code; slots = m.slots.items; row = m.row } };

    ghost invariant = { IsRunning };
}

fn shape_at(slots: &[Slot], at: u32) -> Shape
    ensures { result ≡ shapes.shape_at slots.now at }
{
    match slots.get(at as usize) {
        Some(slot) => slot.shape,
        None => Shape::Unit,
    }
}

fn copy_clock(alloc: Global, on: &[(u32, Leaf)]) -> Result<List<(u32, Leaf)>, NoMemory>
    ensures { IfOk result (λ copy. copy ≡ on.now) }
{
    let mut done = List::new(alloc);
    for (at, leaf) in on {
        done.push((*at, *leaf))?;
    }
    Ok(done)
}

fn field_of(alloc: Global, slots: &[Slot], line: &InLine) -> Result<Field, NoMemory>
    ensures { IfOk result (λ field. field ≡ steps_of.field_of slots.now line.now) }
{
    Ok(Field {
        shape: shape_at(slots, line.slot),
        on: copy_clock(alloc, line.on.as_slice())?,
        signal: line.signal,
    })
}

fn fields_of(alloc: Global, slots: &[Slot], lines: &[InLine]) -> Result<List<Field>, NoMemory>
    ensures { IfOk result (λ fields. fields ≡ map (steps_of.field_of slots.now) lines.now) }
{
    let mut fields = List::new(alloc);
    for line in lines {
        fields.push(field_of(alloc, slots, line)?)?;
    }
    Ok(fields)
}

fn form_of(alloc: Global, code: &Code) -> Result<InputForm, NoMemory>
    ensures { IfOk result (λ form. form ≡ steps_of.form_of code.now) }
{
    Ok(InputForm {
        fields: fields_of(alloc, code.slots.as_slice(), code.inputs.as_slice())?,
        cases: code.cases.copy(alloc)?,
        names: code.names.copy(alloc)?,
    })
}

fn first_leaf(slot: &Slot) -> Leaf
    ensures { result ≡ steps_of.first_leaf slot.now.kind }
{
    match slot.kind {
        SlotKind::Mem(leaf) => leaf,
        _ => Leaf::Nil,
    }
}

fn first_slots(alloc: Global, slots: &[Slot]) -> Result<Vec<Leaf>, NoMemory>
    ensures { IfOk result (λ leaves. leaves.items ≡ map (λ (s : Slot). steps_of.first_leaf s.kind) slots.now) }
{
    let mut leaves = Vec::new(alloc);
    for slot in slots {
        if leaves.push(first_leaf(slot)).is_err() {
            return Err(NoMemory);
        }
    }
    Ok(leaves)
}

impl Machine {
    /// The machine of a code before its first step. On refusal the code is given up.
    pub fn new(alloc: Global, code: Code) -> Result<Machine, NoMemory>
        ensures made { IfOk result (λ machine. machine.code ≡ code) }
        ensures slots { IfOk result (λ machine. machine.slots ≡ steps_of.first_slots code) }
    {
        let form = form_of(alloc, &code)?;
        let slots = first_slots(alloc, code.slots.as_slice())?;
        let row = OutRow::new(alloc, code.outputs.len())?;
        Ok(Machine {
            code,
            form,
            slots,
            row,
        })
    }

    /// The number of its slots.
    pub fn slots(&self) -> u32
        ensures { result ≡ length self.now.code.slots }
    {
        self.code.slots.len() as u32
    }

    /// The code that it was made of.
    pub fn code(&self) -> &Code
        ensures { result.now ≡ self.now.code }
    {
        &self.code
    }

    /// The form of its lines of input, which has the names of the constructors in its rows, too.
    pub fn form(&self) -> &InputForm
        ensures { result.now ≡ steps_of.form_of self.now.code }
    {
        &self.form
    }

    /// The row of the last step that noted no alarm.
    pub fn row(&self) -> &OutRow
        ensures { result.now ≡ self.now.row }
    {
        &self.row
    }

    /// One instant: sets the slots of the inputs, evaluates the instructions, and makes the row
    /// where no alarm was noted. It ticks once for each instruction that it evaluates.
    pub fn step<L: Ledger>(&mut self, inputs: &Inputs, steps: &mut Steps<L>) -> Stepped
        requires { Fits (steps_of.form_of self.old.code) inputs.now }
        ensures code { self.new.code ≡ self.old.code }
        ensures slots { self.new.slots ≡ (steps_of.step self.old.code inputs.now self.old.slots).slots }
        ensures alarm { result ≡ stepped (alarm_in (steps_of.step self.old.code inputs.now self.old.slots)) }
        ensures ticks { steps.new ≡ steps.old + (steps_of.step self.old.code inputs.now self.old.slots).ticks }
        ensures row { result ≡ Stepped.Done → self.new.row ≡ steps_of.row self.old.code self.new.slots }
        ensures writable { result ≡ Stepped.Done → All (IsWritable (steps_of.form_of self.old.code)) self.new.row }
        ensures kept { result ≢ Stepped.Done → self.new.row ≡ self.old.row }
    {
        if self.evaluate(inputs, steps) {
            return Stepped::Alarmed(AlarmKind::Division);
        }
        self.make_row();
        Stepped::Done
    }

    fn evaluate<L: Ledger>(&mut self, inputs: &Inputs, steps: &mut Steps<L>) -> bool
        requires { Fits (steps_of.form_of self.old.code) inputs.now }
        ensures code { self.new.code ≡ self.old.code }
        ensures slots { self.new.slots ≡ (steps_of.step self.old.code inputs.now self.old.slots).slots }
        ensures alarm { result ≡ (steps_of.step self.old.code inputs.now self.old.slots).alarmed }
        ensures ticks { steps.new ≡ steps.old + (steps_of.step self.old.code inputs.now self.old.slots).ticks }
        ensures row { self.new.row ≡ self.old.row }
    {
        let code = &self.code;
        let slots = &mut self.slots;
        evaluate_step(code, inputs, slots, steps)
    }

    fn make_row(&mut self)
        ensures code { self.new.code ≡ self.old.code }
        ensures slots { self.new.slots ≡ self.old.slots }
        ensures row { self.new.row ≡ steps_of.row self.old.code self.old.slots }
        ensures writable { All (IsWritable (steps_of.form_of self.old.code)) self.new.row }
    {
        let code = &self.code;
        let row = &mut self.row;
        set_row(code.outputs.as_slice(), &self.slots, row);
    }
}

/// Sets the slots of the inputs, and evaluates the main list.
fn evaluate_slots<L: Ledger>(
    code: &Code,
    inputs: &Inputs,
    slots: &mut [Leaf],
    steps: &mut Steps<L>,
) -> bool
    requires { length slots.old ≡ length code.now.slots }
    ensures { steps_of.moment slots.new result steps.new ≡ later steps.old (steps_of.step code.now inputs.now slots.old) }
{
    let window = Window {
        base: 0,
        width: slots.len(),
    };
    let lines = code.inputs.as_slice();
    set_inputs(lines, inputs, slots);
    let bodies = code.bodies.as_slice();
    let main = code.main.as_slice();
    run_list(bodies, window, main, slots, false, steps)
}

/// The same of a vector of slots.
fn evaluate_step<L: Ledger>(
    code: &Code,
    inputs: &Inputs,
    slots: &mut Vec<Leaf>,
    steps: &mut Steps<L>,
) -> bool
    requires { length slots.old.items ≡ length code.now.slots }
    ensures run { steps_of.moment slots.new.items result steps.new ≡ later steps.old (steps_of.step code.now inputs.now slots.old.items) }
    ensures all { length slots.new.items ≡ length slots.old.items }
{
    evaluate_slots(code, inputs, slots, steps)
}

impl LineMachine for Machine {
    ghost use Rattle.step_runner.specs.Running.{node_on};

    ghost node = { λ m. node_on m.code m.slots };

    ghost shown = { λ m. m.row };

    fn form(&self) -> &InputForm {
        Machine::form(self)
    }

    fn step<L: Ledger>(&mut self, inputs: &Inputs, steps: &mut Steps<L>) -> Stepped {
        Machine::step(self, inputs, steps)
    }

    fn row(&self) -> &OutRow {
        Machine::row(self)
    }
}
