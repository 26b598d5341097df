//! The instructions of a list are evaluated.

ghost use Rattle.std.specs.Prelude.{◌≡◌, ◌≤◌, ◌<◌, ◌+◌, ℕ, List, All, Bool, [], length};
ghost use Rattle.step_code.specs.Steps.{moment, run as run_of, effect, skipped, body_steps, BodyStep};
ghost use Rattle.step_runner.specs.Ranges.{IsSimple, IsWithin, AreWithin, MayGuard, window_at};

use crate::leaves::{is_true, operate, tested};
use ls_base::Steps;
use ls_value::Leaf;
use std::sync::ledger::Ledger;
use step_code::{CodeBody, Instr};

/// The slots of a list: where they begin, and how many they are.
#[derive(Clone, Copy, Debug)]
pub(crate) struct Window {
    pub base: usize,
    pub width: usize,
}

/// Evaluates a line that calls no body, and answers whether an alarm was noted so far.
fn evaluate_line(line: &Instr, window: Window, slots: &mut [Leaf], alarmed: bool) -> bool
    requires line { IsSimple window.width line.now }
    requires slots { window.base + window.width ≤ length slots.old }
    ensures { (ticks : ℕ) → moment slots.new result (ticks + 1) ≡ effect [] (window_at window.base) line.now (moment slots.old alarmed ticks) }
{
    let base = window.base;
    match line {
        Instr::Const(d, leaf) => {
            slots[base + *d as usize] = *leaf;
            alarmed
        }
        Instr::Copy(d, a) => {
            slots[base + *d as usize] = slots[base + *a as usize];
            alarmed
        }
        Instr::Op1(op, d, a) => {
            let args = [slots[base + *a as usize]];
            operate(slots, base + *d as usize, *op, &args, alarmed)
        }
        Instr::Op2(op, d, a, b) => {
            let args = [slots[base + *a as usize], slots[base + *b as usize]];
            operate(slots, base + *d as usize, *op, &args, alarmed)
        }
        Instr::Op3(op, d, a, b, c) => {
            let args = [
                slots[base + *a as usize],
                slots[base + *b as usize],
                slots[base + *c as usize],
            ];
            operate(slots, base + *d as usize, *op, &args, alarmed)
        }
        Instr::Test(d, a, leaf) => {
            slots[base + *d as usize] = tested(&slots[base + *a as usize], leaf);
            alarmed
        }
        Instr::When(_, _) => alarmed,
        Instr::Call(_, _) => alarmed,
    }
}

/// How many of the next lines are passed over.
fn passed_over(line: &Instr, window: Window, slots: &[Leaf]) -> usize
    requires line { MayGuard window.width line.now }
    requires slots { window.base + window.width ≤ length slots.now }
    ensures value { (bodies : List BodyStep) (alarmed : Bool) (ticks : ℕ) → result ≡ skipped bodies (window_at window.base) line.now (moment slots.now alarmed ticks) }
    ensures few { result < 4294967296 }
{
    match line {
        Instr::When(guard, size) => if is_true(&slots[window.base + *guard as usize]) {
            0
        } else {
            *size as usize
        },
        _ => 0,
    }
}

/// Evaluates a line, and answers whether an alarm was noted so far. It ticks once, and once for
/// each line of a body that is evaluated.
#[cycle(run)]
fn evaluate<L: Ledger>(
    bodies: &[CodeBody],
    window: Window,
    line: &Instr,
    slots: &mut [Leaf],
    alarmed: bool,
    steps: &mut Steps<L>,
) -> bool
    requires bodies { AreWithin [] bodies.now }
    requires line { IsWithin bodies.now window.width line.now }
    requires slots { window.base + window.width ≤ length slots.old }
    ensures { moment slots.new result steps.new ≡ effect (body_steps [] bodies.now) (window_at window.base) line.now (moment slots.old alarmed steps.old) }
{
    steps.tick();
    match line {
        Instr::Call(body, start) => {
            let own = &bodies[*body as usize];
            let inner = Window {
                base: window.base + *start as usize,
                width: own.slots.len(),
            };
            let earlier = &bodies[..*body as usize];
            run_list(earlier, inner, own.list.as_slice(), slots, alarmed, steps)
        }
        _ => evaluate_line(line, window, slots, alarmed),
    }
}

/// Evaluates the lines of a list from first to last, each at most once, and answers whether an
/// alarm was noted so far. It ticks once for each line that it evaluates.
#[cycle(run)]
pub(crate) fn run_list<L: Ledger>(
    bodies: &[CodeBody],
    window: Window,
    list: &[Instr],
    slots: &mut [Leaf],
    alarmed: bool,
    steps: &mut Steps<L>,
) -> bool
    requires bodies { AreWithin [] bodies.now }
    requires lines { All (IsWithin bodies.now window.width) list.now }
    requires slots { window.base + window.width ≤ length slots.old }
    requires few { length list.now ≤ 4294967294 }
    ensures { moment slots.new result steps.new ≡ run_of (body_steps [] bodies.now) (window_at window.base) 0 list.now (moment slots.old alarmed steps.old) }
{
    let mut noted = alarmed;
    let mut at = 0;
    while at < list.len() {
        let line = &list[at];
        let over = passed_over(line, window, slots);
        noted = evaluate(bodies, window, line, slots, noted, steps);
        at += 1 + over;
    }
    noted
}
