//! The first fault of slots, and of lines of input and output.

ghost use Rattle.std.specs.Prelude.{◌≡◌, ◌==◌, ◌<◌, ◌≤◌, ◌&&◌, ◌++◌, ◌∷◌, [], length, IfOk, true, replicate};
ghost use Rattle.std.specs.List.{list_any, list_all};
ghost use Rattle.std.specs.Option.{option_map_or};
ghost use Rattle.step_code.specs.Leaves.{leaf_eq as leaves_eq};
ghost use Rattle.step_code.specs.Marks.{AreUses, ChangesUses, SignalWithin, field_if, signal_if, no_use};
ghost use Rattle.step_code.specs.Valid as valid;

use crate::push::push;
use crate::shapes::{
    fits, is_known_leaf, is_known_shape, leaf_eq, mem_fits, mem_known, same_shape, shape_at,
};
use crate::{Fault, InLine, OutLine, Slot};
use ls_base::{List, Name, NoMemory};
use ls_value::{Leaf, Shape};
use std::alloc::Global;

fn slot_fault(cases: &[List<Name>], slot: &Slot) -> Option<Fault>
    ensures { result ≡ valid.slot_fault cases.now slot.now }
{
    if !(is_known_shape(cases, slot.shape) && mem_known(cases, &slot.kind)) {
        return Some(Fault::Slot);
    }
    if mem_fits(&slot.kind, slot.shape) {
        None
    } else {
        Some(Fault::Shape)
    }
}

/// The first fault of slots, and its place.
pub(crate) fn slots_fault(cases: &[List<Name>], slots: &[Slot]) -> Option<(u32, Fault)>
    requires { length slots.now ≤ 4294967294 }
    ensures { result ≡ valid.slots_fault cases.now slots.now }
{
    for (i, slot) in slots.iter().enumerate() {
        if let Some(fault) = slot_fault(cases, slot) {
            return Some((i as u32, fault));
        }
    }
    None
}

/// What the lines of input so far did to a slot.
#[derive(Clone, Copy, Debug)]
pub(crate) struct Use {
    /// A line takes its field there.
    pub field: bool,
    /// The first line that says there whether its signal is emitted.
    pub signal: Option<u32>,
}

fn same_asked(a: &(u32, Leaf), b: &(u32, Leaf)) -> bool
    ensures { result ≡ ((a.now.0 == b.now.0) && leaves_eq a.now.1 b.now.1) }
{
    a.0 == b.0 && leaf_eq(&a.1, &b.1)
}

fn same_clock(one: &[(u32, Leaf)], two: &[(u32, Leaf)]) -> bool
    ensures { result ≡ valid.same_clock one.now two.now }
{
    if one.len() != two.len() {
        return false;
    }
    for i in 0..one.len() {
        if !same_asked(&one[i], &two[i]) {
            return false;
        }
    }
    true
}

fn has_slot(slots: &[Slot], at: u32) -> bool
    ensures { result ≡ valid.has_slot slots.now at }
{
    (at as usize) < slots.len()
}

fn is_bool(slots: &[Slot], at: u32) -> bool
    ensures { result ≡ valid.is_bool slots.now at }
{
    same_shape(shape_at(slots, at), Shape::Bool)
}

fn asks_known(cases: &[List<Name>], all: &[InLine], asked: &(u32, Leaf)) -> bool
    ensures { result ≡ valid.asks_known cases.now all.now asked.now }
{
    (asked.0 as usize) < all.len() && is_known_leaf(cases, &asked.1)
}

fn all_known(cases: &[List<Name>], all: &[InLine], on: &[(u32, Leaf)]) -> bool
    ensures { result ≡ list_all (valid.asks_known cases.now all.now) on.now }
{
    on.iter().all(|asked| asks_known(cases, all, asked))
}

fn fits_line(slots: &[Slot], leaf: &Leaf, line: &InLine) -> bool
    ensures { result ≡ valid.fits_line slots.now leaf.now line.now }
{
    match slots.get(line.slot as usize) {
        Some(slot) => fits(leaf, slot.shape),
        None => true,
    }
}

fn asks_fitting(slots: &[Slot], all: &[InLine], asked: &(u32, Leaf)) -> bool
    ensures { result ≡ valid.asks_fitting slots.now all.now asked.now }
{
    match all.get(asked.0 as usize) {
        Some(line) => fits_line(slots, &asked.1, line),
        None => true,
    }
}

fn all_fitting(slots: &[Slot], all: &[InLine], on: &[(u32, Leaf)]) -> bool
    ensures { result ≡ list_all (valid.asks_fitting slots.now all.now) on.now }
{
    on.iter().all(|asked| asks_fitting(slots, all, asked))
}

fn is_field(earlier: &[InLine], uses: &[Use], at: u32) -> bool
    requires uses { AreUses earlier.now (length uses.now) uses.now }
    requires within { at < length uses.now }
    ensures { result ≡ list_any (valid.is_field at) earlier.now }
{
    uses[at as usize].field
}

fn first_signal(earlier: &[InLine], uses: &[Use], at: u32) -> Option<u32>
    requires uses { AreUses earlier.now (length uses.now) uses.now }
    requires within { at < length uses.now }
    ensures { result ≡ valid.first_signal at earlier.now }
{
    uses[at as usize].signal
}

fn has_clock_at(earlier: &[InLine], line: &InLine, at: u32) -> bool
    ensures { result ≡ valid.has_clock_at earlier.now line.now at }
{
    match earlier.get(at as usize) {
        Some(first) => same_clock(line.on.as_slice(), first.on.as_slice()),
        None => true,
    }
}

fn same_signal(earlier: &[InLine], uses: &[Use], line: &InLine, at: u32) -> bool
    requires uses { AreUses earlier.now (length uses.now) uses.now }
    requires within { at < length uses.now }
    ensures { result ≡ valid.same_signal earlier.now line.now at }
{
    match first_signal(earlier, uses, at) {
        Some(first) => has_clock_at(earlier, line, first),
        None => true,
    }
}

fn signal_goes(earlier: &[InLine], uses: &[Use], line: &InLine) -> bool
    requires uses { AreUses earlier.now (length uses.now) uses.now }
    requires within { SignalWithin (length uses.now) line.now }
    ensures { result ≡ option_map_or (valid.signal_goes earlier.now line.now) line.now.signal true }
{
    match line.signal {
        Some(signal) => !is_field(earlier, uses, signal)
            && same_signal(earlier, uses, line, signal),
        None => true,
    }
}

/// Whether a line of input goes with those before it.
fn goes_with(earlier: &[InLine], uses: &[Use], line: &InLine) -> bool
    requires uses { AreUses earlier.now (length uses.now) uses.now }
    requires slot { line.now.slot < length uses.now }
    requires signal { SignalWithin (length uses.now) line.now }
    ensures { result ≡ valid.goes_with earlier.now line.now }
{
    !is_field(earlier, uses, line.slot)
        && first_signal(earlier, uses, line.slot).is_none()
        && signal_goes(earlier, uses, line)
}

fn signal_named(slots: &[Slot], line: &InLine) -> bool
    ensures { result ≡ valid.signal_named slots.now line.now }
{
    match line.signal {
        Some(signal) => has_slot(slots, signal) && signal != line.slot,
        None => true,
    }
}

fn in_named(
    cases: &[List<Name>],
    slots: &[Slot],
    all: &[InLine],
    earlier: &[InLine],
    uses: &[Use],
    line: &InLine,
) -> bool
    requires { AreUses earlier.now (length slots.now) uses.now }
    ensures { result ≡ valid.in_named cases.now slots.now all.now earlier.now line.now }
{
    has_slot(slots, line.slot)
        && signal_named(slots, line)
        && all_known(cases, all, line.on.as_slice())
        && goes_with(earlier, uses, line)
}

fn signal_shaped(slots: &[Slot], line: &InLine) -> bool
    ensures { result ≡ option_map_or (valid.is_bool slots.now) line.now.signal true }
{
    match line.signal {
        Some(signal) => is_bool(slots, signal),
        None => true,
    }
}

fn in_shaped(slots: &[Slot], all: &[InLine], line: &InLine) -> bool
    ensures { result ≡ valid.in_shaped slots.now all.now line.now }
{
    signal_shaped(slots, line) && all_fitting(slots, all, line.on.as_slice())
}

fn in_fault(
    cases: &[List<Name>],
    slots: &[Slot],
    all: &[InLine],
    earlier: &[InLine],
    uses: &[Use],
    line: &InLine,
) -> Option<Fault>
    requires { AreUses earlier.now (length slots.now) uses.now }
    ensures { result ≡ valid.in_fault cases.now slots.now all.now earlier.now line.now }
{
    if !in_named(cases, slots, all, earlier, uses, line) {
        return Some(Fault::Slot);
    }
    if in_shaped(slots, all, line) {
        None
    } else {
        Some(Fault::Shape)
    }
}

fn blank_uses(alloc: Global, slots: &[Slot]) -> Result<Vec<Use>, NoMemory>
    ensures { IfOk result (λ uses. uses.items ≡ replicate (length slots.now) no_use) }
{
    let mut uses = Vec::new(alloc);
    for _slot in slots {
        let unused = Use {
            field: false,
            signal: None,
        };
        push(&mut uses, unused)?;
    }
    Ok(uses)
}

fn use_field(uses: &mut [Use], at: u32)
    requires { at < length uses.old }
    ensures { ChangesUses (λ u k. field_if u (at == k)) uses.old uses.new }
{
    uses[at as usize].field = true;
}

fn use_signal(uses: &mut [Use], at: u32, number: u32)
    requires { at < length uses.old }
    ensures { ChangesUses (λ u k. signal_if u (at == k) number) uses.old uses.new }
{
    if uses[at as usize].signal.is_none() {
        uses[at as usize].signal = Some(number);
    }
}

fn use_own_signal(uses: &mut [Use], line: &InLine, number: u32)
    requires { SignalWithin (length uses.old) line.now }
    ensures { ChangesUses (λ u k. signal_if u (valid.is_signal k line.now) number) uses.old uses.new }
{
    if let Some(signal) = line.signal {
        use_signal(uses, signal, number);
    }
}

/// Notes what a line does to its slots.
fn use_line(earlier: &[InLine], uses: &mut [Use], line: &InLine)
    requires uses { AreUses earlier.now (length uses.old) uses.old }
    requires slot { line.now.slot < length uses.old }
    requires signal { SignalWithin (length uses.old) line.now }
    requires few { length earlier.now ≤ 4294967294 }
    ensures { AreUses (earlier.now ++ line.now ∷ []) (length uses.old) uses.new }
{
    use_field(uses, line.slot);
    use_own_signal(uses, line, earlier.len() as u32);
}

/// The first fault of lines of input, and its place.
pub(crate) fn inputs_fault(
    alloc: Global,
    cases: &[List<Name>],
    slots: &[Slot],
    inputs: &[InLine],
) -> Result<Option<(u32, Fault)>, NoMemory>
    requires { length inputs.now ≤ 4294967294 }
    ensures { IfOk result (λ found. found ≡ valid.inputs_fault cases.now slots.now inputs.now) }
{
    let mut uses = blank_uses(alloc, slots)?;
    for (i, line) in inputs.iter().enumerate() {
        let earlier = &inputs[..i];
        if let Some(fault) = in_fault(cases, slots, inputs, earlier, &uses, line) {
            return Ok(Some((i as u32, fault)));
        }
        use_line(earlier, &mut uses, line);
    }
    Ok(None)
}

fn guard_named(slots: &[Slot], line: &OutLine) -> bool
    ensures { result ≡ option_map_or (valid.has_slot slots.now) line.now.guard true }
{
    match line.guard {
        Some(guard) => has_slot(slots, guard),
        None => true,
    }
}

fn guard_shaped(slots: &[Slot], line: &OutLine) -> bool
    ensures { result ≡ option_map_or (valid.is_bool slots.now) line.now.guard true }
{
    match line.guard {
        Some(guard) => is_bool(slots, guard),
        None => true,
    }
}

fn out_fault(slots: &[Slot], line: &OutLine) -> Option<Fault>
    ensures { result ≡ valid.out_fault slots.now line.now }
{
    if !(has_slot(slots, line.slot) && guard_named(slots, line)) {
        return Some(Fault::Slot);
    }
    if guard_shaped(slots, line) {
        None
    } else {
        Some(Fault::Shape)
    }
}

/// The first fault of lines of output, and its place.
pub(crate) fn outputs_fault(slots: &[Slot], outputs: &[OutLine]) -> Option<(u32, Fault)>
    requires { length outputs.now ≤ 4294967294 }
    ensures { result ≡ valid.outputs_fault slots.now outputs.now }
{
    for (i, line) in outputs.iter().enumerate() {
        if let Some(fault) = out_fault(slots, line) {
            return Some((i as u32, fault));
        }
    }
    None
}
