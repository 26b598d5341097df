//! The first fault of bodies and of the whole.

ghost use Rattle.std.specs.Prelude.{◌≡◌, ◌==◌, ◌<◌, ◌≤◌, ◌+◌, [], length, IfOk, IfNone, IsTrue, is_none, All, if◌then◌else◌};
ghost use Rattle.step_code.specs.Marks.{around as told, AreShallow};
ghost use Rattle.step_code.specs.Valid as valid;

use crate::inputs::{inputs_fault, outputs_fault, slots_fault};
use crate::lines::{deepest, list_fault};
use crate::push::push;
use crate::surroundings::Surroundings;
use crate::{CodeBody, Draft, Fault, Place};
use ls_base::{List, Name, NoMemory};
use std::alloc::Global;

fn slot_place(found: Option<(u32, Fault)>) -> Option<(Place, Fault)>
    ensures { result ≡ valid.slot_place found }
{
    match found {
        Some((at, fault)) => Some((Place::Slot(at), fault)),
        None => None,
    }
}

fn in_place(found: Option<(u32, Fault)>) -> Option<(Place, Fault)>
    ensures { result ≡ valid.in_place found }
{
    match found {
        Some((at, fault)) => Some((Place::In(at), fault)),
        None => None,
    }
}

fn out_place(found: Option<(u32, Fault)>) -> Option<(Place, Fault)>
    ensures { result ≡ valid.out_place found }
{
    match found {
        Some((at, fault)) => Some((Place::Out(at), fault)),
        None => None,
    }
}

fn line_place(found: Option<(u32, Fault)>) -> Option<(Place, Fault)>
    ensures { result ≡ valid.line_place found }
{
    match found {
        Some((at, fault)) => Some((Place::Line(at), fault)),
        None => None,
    }
}

fn body_slot_place(body: u32, found: Option<(u32, Fault)>) -> Option<(Place, Fault)>
    ensures { result ≡ valid.body_slot_place body found }
{
    match found {
        Some((at, fault)) => Some((Place::BodySlot(body, at), fault)),
        None => None,
    }
}

fn body_line_place(body: u32, found: Option<(u32, Fault)>) -> Option<(Place, Fault)>
    ensures { result ≡ valid.body_line_place body found }
{
    match found {
        Some((at, fault)) => Some((Place::BodyLine(body, at), fault)),
        None => None,
    }
}

/// The first fault of a body after those before it.
fn body_fault(
    alloc: Global,
    cases: &[List<Name>],
    done: &[CodeBody],
    depths: &[u32],
    lacks: u32,
    body: &CodeBody,
) -> Result<Option<(Place, Fault)>, NoMemory>
    requires { length done.now ≤ 4294967294 }
    ensures { IfOk result (λ found. found ≡ valid.body_fault cases.now done.now depths.now lacks body.now) }
{
    let number = done.len() as u32;
    let slots = body.slots.as_slice();
    let found = slots_fault(cases, slots);
    if found.is_some() {
        return Ok(body_slot_place(number, found));
    }
    let around = Surroundings {
        cases,
        slots,
        inputs: &[],
        bodies: done,
        depths,
        most: 199,
    };
    let found = list_fault(alloc, &around, lacks, body.list.as_slice())?;
    Ok(body_line_place(number, found))
}

/// The call depth of a body after those before it.
fn body_depth(cases: &[List<Name>], done: &[CodeBody], depths: &[u32], body: &CodeBody) -> u32
    requires shallow { AreShallow (length depths.now) depths.now }
    requires few { length depths.now ≤ 4294967294 }
    ensures depth { result ≡ valid.body_depth cases.now done.now depths.now body.now }
    ensures shallow { result ≤ length depths.now + 1 }
{
    let around = Surroundings {
        cases,
        slots: body.slots.as_slice(),
        inputs: &[],
        bodies: done,
        depths,
        most: 199,
    };
    1 + deepest(&around, body.list.as_slice())
}

/// How many lines a body lacks, where the last of so many does.
fn last_lacks(lacks: u32, at: usize, count: usize) -> u32
    requires { at < count }
    ensures { result ≡ (if at + 1 == count then lacks else 0) }
{
    if at + 1 == count { lacks } else { 0 }
}

/// The first fault of bodies, of which the last lacks so many of its lines; the depths of those
/// before it are added.
fn bodies_fault(
    alloc: Global,
    cases: &[List<Name>],
    lacks: u32,
    bodies: &[CodeBody],
    depths: &mut Vec<u32>,
) -> Result<Option<(Place, Fault)>, NoMemory>
    requires few { length bodies.now ≤ 4294967294 }
    requires empty { depths.old.items ≡ [] }
    ensures found { IfOk result (λ found. found ≡ valid.bodies_fault cases.now lacks [] [] bodies.now) }
    ensures depths { IfOk result (λ found. IsTrue (is_none found) → depths.new.items ≡ valid.depths_of cases.now [] [] bodies.now) }
{
    for (i, body) in bodies.iter().enumerate() {
        let done = &bodies[..i];
        let own_lacks = last_lacks(lacks, i, bodies.len());
        let found = body_fault(alloc, cases, done, depths.as_slice(), own_lacks, body)?;
        if found.is_some() {
            return Ok(found);
        }
        let depth = body_depth(cases, done, depths.as_slice(), body);
        push(depths, depth)?;
    }
    Ok(None)
}

impl Draft {
    /// The fault of the lines of slots, input and output.
    fn outer_fault(&self, alloc: Global) -> Result<Option<(Place, Fault)>, NoMemory>
        ensures { IfOk result (λ found. found ≡ valid.outer_fault self.now) }
    {
        let cases = self.cases.as_slice();
        let slots = self.slots.as_slice();
        let found = slots_fault(cases, slots);
        if found.is_some() {
            return Ok(slot_place(found));
        }
        let found = inputs_fault(alloc, cases, slots, self.inputs.as_slice())?;
        if found.is_some() {
            return Ok(in_place(found));
        }
        Ok(out_place(outputs_fault(slots, self.outputs.as_slice())))
    }

    fn list_fault(&self, alloc: Global, depths: &[u32]) -> Result<Option<(Place, Fault)>, NoMemory>
        requires { depths.now ≡ valid.depths_of self.now.cases [] [] self.now.bodies }
        ensures { IfOk result (λ found. found ≡ valid.main_fault self.now) }
    {
        let around = Surroundings {
            cases: self.cases.as_slice(),
            slots: self.slots.as_slice(),
            inputs: self.inputs.as_slice(),
            bodies: self.bodies.as_slice(),
            depths,
            most: 200,
        };
        let found = list_fault(alloc, &around, self.main_lacks, self.main.as_slice())?;
        Ok(line_place(found))
    }

    /// The place of the first line that is bad, and its fault.
    pub fn find_fault(&self, alloc: Global) -> Result<Option<(Place, Fault)>, NoMemory>
        ensures { IfOk result (λ found. found ≡ valid.first_fault self.now) }
    {
        let found = self.outer_fault(alloc)?;
        if found.is_some() {
            return Ok(found);
        }
        let cases = self.cases.as_slice();
        let mut depths = Vec::new(alloc);
        let found = bodies_fault(
            alloc,
            cases,
            self.body_lacks,
            self.bodies.as_slice(),
            &mut depths,
        )?;
        if found.is_some() {
            return Ok(found);
        }
        self.list_fault(alloc, depths.as_slice())
    }
}
