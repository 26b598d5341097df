//! The first fault of a list of instructions.

ghost use Rattle.std.specs.Prelude.{◌≡◌, ◌<◌, ◌≤◌, ◌+◌, ◌&&◌, length, IfOk, IsTrue};
ghost use Rattle.std.specs.List.{list_all};
ghost use Rattle.std.specs.Option.{option_map_or, option_map};
ghost use Rattle.step_code.specs.Marks.{around as told, AreMarks, AreRegions, AllReach};
ghost use Rattle.step_code.specs.Valid as valid;

use crate::marks::{Mark, first_marks, mark_line, width};
use crate::regions::{close_before, ends_inside, open_region};
use crate::shapes::{
    fits, is_arg, is_known_leaf, is_mem, kind_at, operands_fit, same_mem, same_shape, shape_at,
};
use crate::surroundings::Surroundings;
use crate::{Fault, Instr, Slot};
use ls_base::NoMemory;
use ls_ops::sign_of;
use ls_value::Shape;
use std::alloc::Global;

fn has_slot(around: &Surroundings, at: u32) -> bool
    ensures { result ≡ valid.is_slot (told around.now) at }
{
    (at as usize) < around.slots.len()
}

/// Whether each number of a line is that of a slot.
fn names_slots(around: &Surroundings, line: &Instr) -> bool
    ensures { result ≡ valid.names_slots (told around.now) line.now }
{
    match line {
        Instr::Const(d, _) => has_slot(around, *d),
        Instr::Copy(d, a) => has_slot(around, *d) && has_slot(around, *a),
        Instr::Op1(_, d, a) => has_slot(around, *d) && has_slot(around, *a),
        Instr::Op2(_, d, a, b) => has_slot(around, *d)
            && has_slot(around, *a)
            && has_slot(around, *b),
        Instr::Op3(_, d, a, b, c) => has_slot(around, *d)
            && has_slot(around, *a)
            && has_slot(around, *b)
            && has_slot(around, *c),
        Instr::Test(d, a, _) => has_slot(around, *d) && has_slot(around, *a),
        Instr::When(guard, _) => has_slot(around, *guard),
        Instr::Call(_, _) => true,
    }
}

fn is_covered(around: &Surroundings, earlier: &[Instr], marks: &[Mark], at: usize) -> bool
    requires marks { AreMarks (told around.now) earlier.now marks.now }
    requires within { at < length (told around.now).slots }
    ensures { result ≡ valid.is_covered (told around.now) earlier.now at }
{
    marks[at].covered
}

fn is_written(around: &Surroundings, earlier: &[Instr], marks: &[Mark], at: usize) -> bool
    requires marks { AreMarks (told around.now) earlier.now marks.now }
    requires within { at < length (told around.now).slots }
    ensures { result ≡ valid.is_written (told around.now) earlier.now at }
{
    marks[at].written
}

fn is_set(around: &Surroundings, earlier: &[Instr], marks: &[Mark], at: usize) -> bool
    requires marks { AreMarks (told around.now) earlier.now marks.now }
    requires within { at < length (told around.now).slots }
    ensures { result ≡ valid.is_set (told around.now) at }
{
    marks[at].is_set
}

/// Whether a slot of a window stands in the window of a call before.
fn any_covered(
    around: &Surroundings,
    earlier: &[Instr],
    marks: &[Mark],
    window: usize,
    width: usize,
) -> bool
    requires marks { AreMarks (told around.now) earlier.now marks.now }
    requires within { window + width ≤ length (told around.now).slots }
    ensures { result ≡ valid.any_from (valid.is_covered (told around.now) earlier.now) window width }
{
    for at in window..window + width {
        if is_covered(around, earlier, marks, at) {
            return true;
        }
    }
    false
}

fn call_named(around: &Surroundings, earlier: &[Instr], marks: &[Mark], line: &Instr) -> bool
    requires { AreMarks (told around.now) earlier.now marks.now }
    ensures { result ≡ valid.call_named (told around.now) earlier.now line.now }
{
    match line {
        Instr::Call(body, window) => {
            let width = width(around, *body);
            let window = *window as usize;
            (*body as usize) < around.bodies.len()
                && window + width <= around.slots.len()
                && !any_covered(around, earlier, marks, window, width)
        }
        _ => true,
    }
}

fn names_leaf(around: &Surroundings, line: &Instr) -> bool
    ensures { result ≡ valid.names_leaf (told around.now) line.now }
{
    match line {
        Instr::Const(_, leaf) => is_known_leaf(around.cases, leaf),
        Instr::Test(_, _, leaf) => is_known_leaf(around.cases, leaf),
        _ => true,
    }
}

fn is_named(around: &Surroundings, earlier: &[Instr], marks: &[Mark], line: &Instr) -> bool
    requires { AreMarks (told around.now) earlier.now marks.now }
    ensures { result ≡ valid.is_named (told around.now) earlier.now line.now }
{
    names_slots(around, line)
        && names_leaf(around, line)
        && call_named(around, earlier, marks, line)
}

fn is_ready(around: &Surroundings, earlier: &[Instr], marks: &[Mark], at: u32) -> bool
    requires marks { AreMarks (told around.now) earlier.now marks.now }
    requires within { at < length (told around.now).slots }
    ensures { result ≡ valid.is_ready (told around.now) earlier.now at }
{
    let kind = kind_at(around.slots, at);
    is_set(around, earlier, marks, at as usize)
        || is_mem(&kind)
        || is_arg(&kind)
        || is_written(around, earlier, marks, at as usize)
}

fn two_ready(around: &Surroundings, earlier: &[Instr], marks: &[Mark], a: u32, b: u32) -> bool
    requires marks { AreMarks (told around.now) earlier.now marks.now }
    requires a_within { a < length (told around.now).slots }
    requires b_within { b < length (told around.now).slots }
    ensures { result ≡ (valid.is_ready (told around.now) earlier.now a && valid.is_ready (told around.now) earlier.now b) }
{
    is_ready(around, earlier, marks, a) && is_ready(around, earlier, marks, b)
}

fn three_ready(
    around: &Surroundings,
    earlier: &[Instr],
    marks: &[Mark],
    a: u32,
    b: u32,
    c: u32,
) -> bool
    requires marks { AreMarks (told around.now) earlier.now marks.now }
    requires ab_within { (a < length (told around.now).slots) × (b < length (told around.now).slots) }
    requires c_within { c < length (told around.now).slots }
    ensures { result ≡ (valid.is_ready (told around.now) earlier.now a && valid.is_ready (told around.now) earlier.now b && valid.is_ready (told around.now) earlier.now c) }
{
    two_ready(around, earlier, marks, a, b) && is_ready(around, earlier, marks, c)
}

/// Whether each slot that a line reads is ready.
fn are_ready(around: &Surroundings, earlier: &[Instr], marks: &[Mark], line: &Instr) -> bool
    requires marks { AreMarks (told around.now) earlier.now marks.now }
    requires named { IsTrue (valid.names_slots (told around.now) line.now) }
    ensures { result ≡ valid.are_ready (told around.now) earlier.now line.now }
{
    match line {
        Instr::Const(_, _) => true,
        Instr::Copy(_, a) => is_ready(around, earlier, marks, *a),
        Instr::Op1(_, _, a) => is_ready(around, earlier, marks, *a),
        Instr::Op2(_, _, a, b) => two_ready(around, earlier, marks, *a, *b),
        Instr::Op3(_, _, a, b, c) => three_ready(around, earlier, marks, *a, *b, *c),
        Instr::Test(_, a, _) => is_ready(around, earlier, marks, *a),
        Instr::When(guard, _) => is_ready(around, earlier, marks, *guard),
        Instr::Call(_, _) => true,
    }
}

fn may_write(around: &Surroundings, earlier: &[Instr], marks: &[Mark], at: u32) -> bool
    requires marks { AreMarks (told around.now) earlier.now marks.now }
    requires within { at < length (told around.now).slots }
    ensures { result ≡ valid.may_write (told around.now) at }
{
    !is_set(around, earlier, marks, at as usize) && !is_arg(&kind_at(around.slots, at))
}

fn target_free(around: &Surroundings, earlier: &[Instr], marks: &[Mark], line: &Instr) -> bool
    requires marks { AreMarks (told around.now) earlier.now marks.now }
    requires named { IsTrue (valid.names_slots (told around.now) line.now) }
    ensures { result ≡ valid.target_free (told around.now) line.now }
{
    match line {
        Instr::Const(d, _) => may_write(around, earlier, marks, *d),
        Instr::Copy(d, _) => may_write(around, earlier, marks, *d),
        Instr::Op1(_, d, _) => may_write(around, earlier, marks, *d),
        Instr::Op2(_, d, _, _) => may_write(around, earlier, marks, *d),
        Instr::Op3(_, d, _, _, _) => may_write(around, earlier, marks, *d),
        Instr::Test(d, _, _) => may_write(around, earlier, marks, *d),
        Instr::When(_, _) => true,
        Instr::Call(_, _) => true,
    }
}

/// Whether an operand is written, or another slot of a window may be.
fn slot_ordered(
    around: &Surroundings,
    earlier: &[Instr],
    marks: &[Mark],
    at: u32,
    slot: &Slot,
) -> bool
    requires marks { AreMarks (told around.now) earlier.now marks.now }
    requires within { at < length (told around.now).slots }
    ensures { result ≡ valid.slot_ordered (told around.now) earlier.now at slot.now }
{
    if is_arg(&slot.kind) {
        is_written(around, earlier, marks, at as usize)
    } else {
        may_write(around, earlier, marks, at)
    }
}

/// Whether the operands of a body are written, and its other slots may be.
fn window_ordered(
    around: &Surroundings,
    earlier: &[Instr],
    marks: &[Mark],
    window: u32,
    own: &[Slot],
) -> bool
    requires marks { AreMarks (told around.now) earlier.now marks.now }
    requires within { window + length own.now ≤ length (told around.now).slots }
    requires few { length (told around.now).slots ≤ 4294967294 }
    ensures { result ≡ valid.window_ordered (told around.now) earlier.now window own.now }
{
    for (i, slot) in own.iter().enumerate() {
        if !slot_ordered(around, earlier, marks, window + i as u32, slot) {
            return false;
        }
    }
    true
}

fn body_slots<'a>(around: &Surroundings<'a>, body: u32) -> &'a [Slot]
    ensures value { result.now ≡ valid.body_slots (told around.now) body }
    ensures all { length result.now ≡ valid.width (told around.now) body }
{
    match around.bodies.get(body as usize) {
        Some(body) => body.slots.as_slice(),
        None => &[],
    }
}

fn depth_at(around: &Surroundings, body: u32) -> u32
    ensures { result ≡ valid.depth_at (told around.now) body }
{
    match around.depths.get(body as usize) {
        Some(depth) => *depth,
        None => 0,
    }
}

/// Whether a region or a call goes not too far.
fn is_ordered(
    around: &Surroundings,
    earlier: &[Instr],
    marks: &[Mark],
    ends: &[usize],
    later: usize,
    line: &Instr,
) -> bool
    requires marks { AreMarks (told around.now) earlier.now marks.now }
    requires regions { AreRegions earlier.now ends.now × AllReach (length earlier.now) ends.now }
    requires named { IsTrue (valid.call_named (told around.now) earlier.now line.now) }
    requires few { length (told around.now).slots ≤ 4294967294 }
    ensures { result ≡ valid.is_ordered (told around.now) earlier.now later line.now }
{
    match line {
        Instr::When(_, size) => *size as usize <= later
            && ends_inside(earlier, ends, *size as usize),
        Instr::Call(body, window) => {
            let own = body_slots(around, *body);
            window_ordered(around, earlier, marks, *window, own)
                && depth_at(around, *body) <= around.most
        }
        _ => true,
    }
}

/// Whether a slot has the shape of a body's, and holds the same before the first step.
fn slot_fits(around: &Surroundings, at: u32, slot: &Slot) -> bool
    ensures { result ≡ valid.slot_fits (told around.now) at slot.now }
{
    same_shape(shape_at(around.slots, at), slot.shape)
        && same_mem(&kind_at(around.slots, at), &slot.kind)
}

/// Whether a window's slots have the shapes of a body's, and hold the same before the first step.
fn window_fits(around: &Surroundings, window: u32, own: &[Slot]) -> bool
    requires within { window + length own.now ≤ length (told around.now).slots }
    requires few { length (told around.now).slots ≤ 4294967294 }
    ensures { result ≡ valid.window_fits (told around.now) window own.now }
{
    for (i, slot) in own.iter().enumerate() {
        if !slot_fits(around, window + i as u32, slot) {
            return false;
        }
    }
    true
}

fn has_shapes(around: &Surroundings, earlier: &[Instr], line: &Instr) -> bool
    requires named { IsTrue (valid.call_named (told around.now) earlier.now line.now) }
    requires few { length (told around.now).slots ≤ 4294967294 }
    ensures { result ≡ valid.has_shapes (told around.now) line.now }
{
    let slots = around.slots;
    match line {
        Instr::Const(d, leaf) => fits(leaf, shape_at(slots, *d)),
        Instr::Copy(d, a) => same_shape(shape_at(slots, *d), shape_at(slots, *a)),
        Instr::Op1(op, d, a) => {
            let args = [shape_at(slots, *a)];
            operands_fit(sign_of(*op), shape_at(slots, *d), &args)
        }
        Instr::Op2(op, d, a, b) => {
            let args = [shape_at(slots, *a), shape_at(slots, *b)];
            operands_fit(sign_of(*op), shape_at(slots, *d), &args)
        }
        Instr::Op3(op, d, a, b, c) => {
            let args = [
                shape_at(slots, *a),
                shape_at(slots, *b),
                shape_at(slots, *c),
            ];
            operands_fit(sign_of(*op), shape_at(slots, *d), &args)
        }
        Instr::Test(d, a, leaf) => same_shape(shape_at(slots, *d), Shape::Bool)
            && fits(leaf, shape_at(slots, *a)),
        Instr::When(guard, _) => same_shape(shape_at(slots, *guard), Shape::Bool),
        Instr::Call(body, window) => window_fits(around, *window, body_slots(around, *body)),
    }
}

/// The fault of a line after those before it.
fn line_fault(
    around: &Surroundings,
    earlier: &[Instr],
    marks: &[Mark],
    ends: &[usize],
    later: usize,
    line: &Instr,
) -> Option<Fault>
    requires marks { AreMarks (told around.now) earlier.now marks.now }
    requires regions { AreRegions earlier.now ends.now × AllReach (length earlier.now) ends.now }
    requires few { length (told around.now).slots ≤ 4294967294 }
    ensures { result ≡ valid.line_fault (told around.now) earlier.now later line.now }
{
    if !is_named(around, earlier, marks, line) {
        return Some(Fault::Slot);
    }
    let ordered = are_ready(around, earlier, marks, line)
        && target_free(around, earlier, marks, line)
        && is_ordered(around, earlier, marks, ends, later, line);
    if !ordered {
        return Some(Fault::Order);
    }
    if has_shapes(around, earlier, line) {
        None
    } else {
        Some(Fault::Shape)
    }
}

/// The first fault of a list that lacks so many of its lines, and its place.
pub(crate) fn list_fault(
    alloc: Global,
    around: &Surroundings,
    lacks: u32,
    list: &[Instr],
) -> Result<Option<(u32, Fault)>, NoMemory>
    requires slots { length (told around.now).slots ≤ 4294967294 }
    requires lines { length list.now ≤ 4294967294 }
    ensures { IfOk result (λ found. found ≡ valid.list_fault (told around.now) lacks list.now) }
{
    let mut marks = first_marks(alloc, around)?;
    let mut ends = Vec::new(alloc);
    for (here, line) in list.iter().enumerate() {
        let earlier = &list[..here];
        close_before(earlier, &mut ends);
        let later = list.len() - (here + 1) + lacks as usize;
        if let Some(fault) = line_fault(around, earlier, &marks, &ends, later, line) {
            return Ok(Some((here as u32, fault)));
        }
        open_region(earlier, &mut ends, line)?;
        mark_line(around, earlier, &mut marks, line);
    }
    Ok(None)
}

/// The depth of the deepest body that a list calls.
pub(crate) fn deepest(around: &Surroundings, list: &[Instr]) -> u32
    ensures { result ≡ valid.deepest (told around.now) 0 list.now }
{
    let mut so_far = 0;
    for line in list {
        so_far = deeper(around, so_far, line);
    }
    so_far
}

/// The greater of a depth and that of the body that a line calls.
fn deeper(around: &Surroundings, so_far: u32, line: &Instr) -> u32
    ensures { result ≡ valid.deeper (told around.now) so_far line.now }
{
    match line {
        Instr::Call(body, _) => depth_at(around, *body).max(so_far),
        _ => so_far,
    }
}
