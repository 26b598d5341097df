//! What the lines of a list so far did to its slots.

ghost use Rattle.std.specs.Prelude.{◌≡◌, ◌==◌, ◌<◌, ◌≤◌, ◌+◌, ◌++◌, ◌∷◌, [], length, false, IfOk, IsTrue, replicate};
ghost use Rattle.std.specs.List.{list_any};
ghost use Rattle.step_code.specs.Marks.{around as told, AreMarks, ChangesEach, IsWithin, is_among, set_if, called_if, no_mark};
ghost use Rattle.step_code.specs.Valid as valid;

use crate::push::push;
use crate::surroundings::Surroundings;
use crate::{InLine, Instr, Slot};
use ls_base::NoMemory;
use std::alloc::Global;

/// What is known of a slot before a line of a list.
#[derive(Clone, Copy, Debug)]
pub(crate) struct Mark {
    /// A step sets it from its line.
    pub is_set: bool,
    /// A line before writes it.
    pub written: bool,
    /// It stands in the window of a call before.
    pub covered: bool,
}

fn mark_set(marks: &mut [Mark], at: u32)
    ensures { ChangesEach (λ m k. set_if m (at == k)) marks.old marks.new }
{
    if (at as usize) < marks.len() {
        marks[at as usize].is_set = true;
    }
}

fn mark_signal(marks: &mut [Mark], line: &InLine)
    ensures { ChangesEach (λ m k. set_if m (valid.is_signal k line.now)) marks.old marks.new }
{
    if let Some(signal) = line.signal {
        mark_set(marks, signal);
    }
}

fn mark_input(marks: &mut [Mark], line: &InLine)
    ensures { ChangesEach (λ m k. set_if m (valid.sets k line.now)) marks.old marks.new }
{
    mark_set(marks, line.slot);
    mark_signal(marks, line);
}

fn mark_inputs(marks: &mut [Mark], inputs: &[InLine])
    ensures { ChangesEach (λ m k. set_if m (list_any (valid.sets k) inputs.now)) marks.old marks.new }
{
    for line in inputs {
        mark_input(marks, line);
    }
}

fn blank_marks(alloc: Global, slots: &[Slot]) -> Result<Vec<Mark>, NoMemory>
    ensures { IfOk result (λ marks. marks.items ≡ replicate (length slots.now) no_mark) }
{
    let mut marks = Vec::new(alloc);
    for _slot in slots {
        let mark = Mark {
            is_set: false,
            written: false,
            covered: false,
        };
        push(&mut marks, mark)?;
    }
    Ok(marks)
}

/// The marks before the first line.
pub(crate) fn first_marks(alloc: Global, around: &Surroundings) -> Result<Vec<Mark>, NoMemory>
    ensures { IfOk result (λ marks. AreMarks (told around.now) [] marks.items) }
{
    let mut marks = blank_marks(alloc, around.slots)?;
    mark_inputs(&mut marks, around.inputs);
    Ok(marks)
}

fn mark_written(marks: &mut [Mark], at: u32)
    requires { at < length marks.old }
    ensures { ChangesEach (λ m k. called_if m (at == k) false) marks.old marks.new }
{
    marks[at as usize].written = true;
}

fn mark_window(marks: &mut [Mark], window: usize, width: usize)
    requires { window + width ≤ length marks.old }
    ensures { ChangesEach (λ m k. called_if m (is_among window width k) (is_among window width k)) marks.old marks.new }
{
    for at in window..window + width {
        mark_covered(marks, at);
    }
}

fn mark_covered(marks: &mut [Mark], at: usize)
    requires { at < length marks.old }
    ensures { ChangesEach (λ m k. called_if m (at == k) (at == k)) marks.old marks.new }
{
    marks[at].written = true;
    marks[at].covered = true;
}

/// Marks what a line writes.
pub(crate) fn mark_line(
    around: &Surroundings,
    earlier: &[Instr],
    marks: &mut Vec<Mark>,
    line: &Instr,
)
    requires marks { AreMarks (told around.now) earlier.now marks.old.items }
    requires named { IsTrue (valid.is_named (told around.now) earlier.now line.now) }
    ensures { AreMarks (told around.now) (earlier.now ++ line.now ∷ []) marks.new.items }
{
    change_marks(around, marks, line);
}

fn change_marks(around: &Surroundings, marks: &mut [Mark], line: &Instr)
    requires { IsWithin (told around.now) (length marks.old) line.now }
    ensures { ChangesEach (λ m k. called_if m (valid.writes (told around.now) k line.now) (valid.covers (told around.now) k line.now)) marks.old marks.new }
{
    match line {
        Instr::Const(d, _) => mark_written(marks, *d),
        Instr::Copy(d, _) => mark_written(marks, *d),
        Instr::Op1(_, d, _) => mark_written(marks, *d),
        Instr::Op2(_, d, _, _) => mark_written(marks, *d),
        Instr::Op3(_, d, _, _, _) => mark_written(marks, *d),
        Instr::Test(d, _, _) => mark_written(marks, *d),
        Instr::When(_, _) => {}
        Instr::Call(body, window) => mark_window(marks, *window as usize, width(around, *body)),
    }
}

/// The number of slots of a body.
pub(crate) fn width(around: &Surroundings, body: u32) -> usize
    ensures value { result ≡ valid.width (told around.now) body }
    ensures few { result ≤ 4294967294 }
{
    match around.bodies.get(body as usize) {
        Some(body) => body.slots.len(),
        None => 0,
    }
}
