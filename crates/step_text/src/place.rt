//! The lines of the places of step code.

ghost use Rattle.std.specs.Prelude.{◌≡◌, ◌≤◌, ◌<◌, ◌+◌, length, take};
ghost use Rattle.step_text.specs.Lines as spec;

use step_code::{CodeBody, Draft, Place};

/// The number of lines of a body.
fn body_size(body: &CodeBody) -> usize
    ensures { result ≡ spec.body_size body.now }
{
    1 + body.slots.len() + body.list.len()
}

/// The number of lines of bodies.
fn bodies_size(bodies: &[CodeBody]) -> usize
    requires { spec.bodies_size bodies.now ≤ 4294967295 }
    ensures { result ≡ spec.bodies_size bodies.now }
{
    let mut size = 0;
    for body in bodies {
        size += body_size(body);
    }
    size
}

/// The number of lines before the first body.
fn front_size(draft: &Draft) -> usize
    ensures { result ≡ spec.front_size draft.now }
{
    2 + draft.cases.len() + draft.slots.len() + draft.inputs.len() + draft.outputs.len()
}

/// The number of lines before that of a body.
fn before_body(draft: &Draft, body: u32) -> usize
    requires within { body < length draft.now.bodies }
    requires short { spec.size draft.now ≤ 4294967290 }
    ensures value { result ≡ spec.before_body draft.now body }
    ensures few { result ≤ spec.size draft.now }
{
    front_size(draft) + bodies_size(&draft.bodies.as_slice()[..body as usize])
}

fn body_slots(draft: &Draft, body: u32) -> usize
    ensures { result ≡ spec.slots_in draft.now.bodies body }
{
    match draft.bodies.get(body as usize) {
        Some(body) => body.slots.len(),
        None => 0,
    }
}

/// The number, from 1, of the line of a place.
pub(crate) fn line_of(draft: &Draft, place: Place) -> u32
    requires there { spec.IsPlace draft.now place }
    requires short { spec.size draft.now ≤ 4294967290 }
    ensures { result ≡ spec.line_of draft.now place }
{
    line_at(draft, place) as u32
}

fn line_at(draft: &Draft, place: Place) -> usize
    requires there { spec.IsPlace draft.now place }
    requires short { spec.size draft.now ≤ 4294967290 }
    ensures { result ≡ spec.line_of draft.now place }
{
    let slots = 3 + draft.cases.len();
    match place {
        Place::Slot(at) => slots + at as usize,
        Place::In(at) => slots + draft.slots.len() + at as usize,
        Place::Out(at) => slots + draft.slots.len() + draft.inputs.len() + at as usize,
        Place::BodySlot(body, at) => before_body(draft, body) + 2 + at as usize,
        Place::BodyLine(body, at) => {
            before_body(draft, body) + 2 + body_slots(draft, body) + at as usize
        }
        Place::Line(at) => {
            front_size(draft) + bodies_size(draft.bodies.as_slice()) + 2 + at as usize
        }
    }
}
