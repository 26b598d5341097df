//! What was read so far.

ghost use Rattle.std.specs.Prelude.{◌≡◌, ◌<◌, ◌∷◌, ◌++◌, ◌==◌, nat_lt, [], ℕ, List, true, false, Some, None, All, IfOk, OnOk, IsTrue, slice_get, length};
ghost use Rattle.std.specs.Str.{IsUtf8};
ghost use Rattle.step_code.specs.Shapes as shapes;
ghost use Rattle.step_text.specs.Legal.{IsConstructor, IsEntry};
ghost use Rattle.step_text.specs.Next as spec;
ghost use Rattle.step_text.specs.declared.entry.Entry.{Entry};
ghost use Rattle.step_text.specs.declared.reading.Stage.{Stage};

use crate::entry::Entry;
use crate::forms::{push_instruction, push_slot};
use ls_base::{List, Name, Names, NoMemory};
use std::alloc::Global;
use step_code::{CodeBody, Draft, InLine, Instr, OutLine, Slot, SlotKind};

/// The greatest number of slots of a text.
const MOST_SLOTS: u32 = 1_000_000;

/// Which lines come next.
#[derive(Clone, Copy, Debug, PartialEq, Eq)]
pub(crate) enum Stage {
    /// The first line.
    Header,
    /// Enumerations, and then the number of slots.
    Cases,
    /// So many slots, one at least.
    Slots(u32),
    /// Lines of input, and what follows them.
    Inputs,
    /// Lines of output, and what follows them.
    Outputs,
    /// Bodies, and then the number of instructions of the main list.
    Bodies,
    /// So many slots of a body, one at least, and then so many instructions.
    BodySlots(u32, u32),
    /// So many instructions of a body, one at least.
    BodyLines(u32),
    /// So many instructions of the main list, and then the last line.
    Main(u32),
    /// None.
    Over,
}

/// What was read so far, and what comes next.
#[derive(Debug, Drop)]
pub(crate) struct Reading {
    pub(crate) stage: Stage,
    cases: List<List<Name>>,
    names: Names,
    slots: List<Slot>,
    inputs: List<InLine>,
    outputs: List<OutLine>,
    /// The bodies that are whole.
    bodies: List<CodeBody>,
    /// The body that is being read.
    body: CodeBody,
    main: List<Instr>,
}

fn empty_body(alloc: Global) -> CodeBody
    ensures { result ≡ spec.empty_body }
{
    CodeBody {
        slots: List::new(alloc),
        list: List::new(alloc),
    }
}

fn is_arg(slot: &Slot) -> bool
    ensures { result ≡ shapes.is_arg slot.now.kind }
{
    matches!(slot.kind, SlotKind::Arg)
}

fn is_cases(stage: Stage) -> bool
    ensures { result ≡ spec.is_cases stage }
{
    matches!(stage, Stage::Cases)
}

/// Whether the text is over.
pub(crate) fn is_over(stage: Stage) -> bool
    ensures { result ≡ spec.is_over stage }
{
    matches!(stage, Stage::Over)
}

/// Whether lines of input may come.
fn takes_inputs(stage: Stage) -> bool
    ensures { result ≡ spec.takes_inputs stage }
{
    matches!(stage, Stage::Inputs)
}

fn takes_outputs(stage: Stage) -> bool
    ensures { result ≡ spec.takes_outputs stage }
{
    matches!(stage, Stage::Inputs | Stage::Outputs)
}

fn takes_bodies(stage: Stage) -> bool
    ensures { result ≡ spec.takes_bodies stage }
{
    matches!(stage, Stage::Inputs | Stage::Outputs | Stage::Bodies)
}

/// What comes where so many slots are left.
fn slots_left(left: u32) -> Stage
    ensures { result ≡ spec.slots_left left }
{
    if left == 0 {
        Stage::Inputs
    } else {
        Stage::Slots(left)
    }
}

fn as_text(word: &[u8]) -> &str
    requires { IsUtf8 word.now }
    ensures { result.now ≡ word.now }
{
    std::str::from_utf8(word).unwrap()
}

/// Whether words differ from each other.
fn are_new(alloc: Global, words: &[List<u8>]) -> Result<bool, NoMemory>
    requires { All IsConstructor words.now }
    ensures { IfOk result (λ new. new ≡ spec.all_new [] words.now) }
{
    let mut known = Names::new(alloc);
    for word in words {
        let text = as_text(word.as_slice());
        if known.find(text).is_some() {
            return Ok(false);
        }
        known.add(text)?;
    }
    Ok(true)
}

/// Adds spellings to the names, and gives their numbers.
fn add_names(alloc: Global, names: &mut Names, words: &[List<u8>]) -> Result<List<Name>, NoMemory>
    requires { All IsConstructor words.now }
    ensures names { OnOk result (names.new ≡ spec.with_names names.old words.now) }
    ensures numbers { IfOk result (spec.AreNumbered names.new words.now) }
{
    let mut done = List::new(alloc);
    for word in words {
        done.push(names.add(as_text(word.as_slice()))?)?;
    }
    Ok(done)
}

impl Reading {
    /// Before the first line.
    pub(crate) fn new(alloc: Global) -> Reading
        ensures { result ≡ spec.nothing_read }
    {
        Reading {
            stage: Stage::Header,
            cases: List::new(alloc),
            names: Names::new(alloc),
            slots: List::new(alloc),
            inputs: List::new(alloc),
            outputs: List::new(alloc),
            bodies: List::new(alloc),
            body: empty_body(alloc),
            main: List::new(alloc),
        }
    }

    /// Takes what the next line says, if it may come next.
    pub(crate) fn take(&mut self, alloc: Global, entry: Entry) -> Result<bool, NoMemory>
        requires { IsEntry entry }
        ensures taken { IfOk result (λ taken. taken ≡ true → spec.Takes self.old entry self.new) }
        ensures refused { IfOk result (λ taken. taken ≡ false → (spec.accepts self.old entry ≡ false) × (self.new ≡ self.old)) }
    {
        match entry {
            Entry::Header => Ok(self.take_header()),
            Entry::Cases(cases) => self.take_cases(alloc, cases.as_slice()),
            Entry::Slots(count) => Ok(self.take_slots(count)),
            Entry::Slot(at, slot) => self.take_slot(alloc, at, &slot),
            Entry::In(line) => self.take_in(line),
            Entry::Out(line) => self.take_out(line),
            Entry::Body(at, slots, lines) => Ok(self.take_body(alloc, at, slots, lines)),
            Entry::Code(lines) => Ok(self.take_code(lines)),
            Entry::Instr(line) => self.take_instruction(alloc, &line),
            Entry::End => Ok(self.take_end()),
        }
    }

    fn take_header(&mut self) -> bool
        ensures taken { result ≡ true → spec.after_header self.old.stage self.old ≡ Some self.new }
        ensures refused { result ≡ false → (spec.after_header self.old.stage self.old ≡ None) × (self.new ≡ self.old) }
    {
        match self.stage {
            Stage::Header => {
                self.stage = Stage::Cases;
                true
            }
            _ => false,
        }
    }

    fn take_cases(&mut self, alloc: Global, words: &[List<u8>]) -> Result<bool, NoMemory>
        requires { All IsConstructor words.now }
        ensures taken { IfOk result (λ taken. taken ≡ true → spec.TakesCases self.old words.now self.new) }
        ensures refused { IfOk result (λ taken. taken ≡ false → (spec.takes_cases self.old.stage words.now ≡ false) × (self.new ≡ self.old)) }
    {
        if !is_cases(self.stage) || words.is_empty() || !are_new(alloc, words)? {
            return Ok(false);
        }
        let numbers = add_names(alloc, &mut self.names, words)?;
        self.cases.push(numbers)?;
        Ok(true)
    }

    fn take_slots(&mut self, count: u32) -> bool
        ensures taken { result ≡ true → spec.after_slots self.old.stage self.old count ≡ Some self.new }
        ensures refused { result ≡ false → (spec.after_slots self.old.stage self.old count ≡ None) × (self.new ≡ self.old) }
    {
        match self.stage {
            Stage::Cases if count <= MOST_SLOTS => {
                self.stage = slots_left(count);
                true
            }
            _ => false,
        }
    }

    fn take_slot(&mut self, alloc: Global, at: u32, slot: &Slot) -> Result<bool, NoMemory>
        ensures taken { IfOk result (λ taken. taken ≡ true → spec.after_slot self.old.stage self.old at slot.now ≡ Some self.new) }
        ensures refused { IfOk result (λ taken. taken ≡ false → (spec.after_slot self.old.stage self.old at slot.now ≡ None) × (self.new ≡ self.old)) }
    {
        match self.stage {
            Stage::Slots(left) => self.take_main_slot(left, at, slot),
            Stage::BodySlots(left, lines) => self.take_body_slot(alloc, left, lines, at, slot),
            _ => Ok(false),
        }
    }

    fn take_main_slot(&mut self, left: u32, at: u32, slot: &Slot) -> Result<bool, NoMemory>
        ensures taken { IfOk result (λ taken. taken ≡ true → spec.after_slot (Stage.Slots left) self.old at slot.now ≡ Some self.new) }
        ensures refused { IfOk result (λ taken. taken ≡ false → (spec.after_slot (Stage.Slots left) self.old at slot.now ≡ None) × (self.new ≡ self.old)) }
    {
        if at as usize != self.slots.len() || is_arg(slot) {
            return Ok(false);
        }
        push_slot(&mut self.slots, slot)?;
        self.stage = slots_left(left.saturating_sub(1));
        Ok(true)
    }

    fn take_body_slot(
        &mut self,
        alloc: Global,
        left: u32,
        lines: u32,
        at: u32,
        slot: &Slot,
    ) -> Result<bool, NoMemory>
        ensures taken { IfOk result (λ taken. taken ≡ true → spec.after_slot (Stage.BodySlots left lines) self.old at slot.now ≡ Some self.new) }
        ensures refused { IfOk result (λ taken. taken ≡ false → (spec.after_slot (Stage.BodySlots left lines) self.old at slot.now ≡ None) × (self.new ≡ self.old)) }
    {
        if at as usize != self.body.slots.len() {
            return Ok(false);
        }
        push_slot(&mut self.body.slots, slot)?;
        self.go_on_body(alloc, left.saturating_sub(1), lines)?;
        Ok(true)
    }

    /// What comes where a body lacks so many slots and instructions.
    fn go_on_body(&mut self, alloc: Global, slots: u32, lines: u32) -> Result<(), NoMemory>
        ensures { OnOk result (self.new ≡ spec.body_goes_on self.old slots lines) }
    {
        if slots > 0 {
            self.stage = Stage::BodySlots(slots, lines);
            return Ok(());
        }
        if lines > 0 {
            self.stage = Stage::BodyLines(lines);
            return Ok(());
        }
        self.stage = Stage::Bodies;
        let body = std::mem::replace(&mut self.body, empty_body(alloc));
        self.bodies.push(body)
    }

    fn take_in(&mut self, line: InLine) -> Result<bool, NoMemory>
        ensures taken { IfOk result (λ taken. taken ≡ true → spec.after_in self.old line ≡ Some self.new) }
        ensures refused { IfOk result (λ taken. taken ≡ false → (spec.after_in self.old line ≡ None) × (self.new ≡ self.old)) }
    {
        if !takes_inputs(self.stage) {
            return Ok(false);
        }
        self.inputs.push(line)?;
        Ok(true)
    }

    fn take_out(&mut self, line: OutLine) -> Result<bool, NoMemory>
        ensures taken { IfOk result (λ taken. taken ≡ true → spec.after_out self.old line ≡ Some self.new) }
        ensures refused { IfOk result (λ taken. taken ≡ false → (spec.after_out self.old line ≡ None) × (self.new ≡ self.old)) }
    {
        if !takes_outputs(self.stage) {
            return Ok(false);
        }
        self.outputs.push(line)?;
        self.stage = Stage::Outputs;
        Ok(true)
    }

    fn take_body(&mut self, alloc: Global, at: u32, slots: u32, lines: u32) -> bool
        ensures taken { result ≡ true → spec.after_body self.old at slots lines ≡ Some self.new }
        ensures refused { result ≡ false → (spec.after_body self.old at slots lines ≡ None) × (self.new ≡ self.old) }
    {
        if !takes_bodies(self.stage) || at as usize != self.bodies.len() || slots == 0 {
            return false;
        }
        self.stage = Stage::BodySlots(slots, lines);
        self.body = empty_body(alloc);
        true
    }

    fn take_code(&mut self, lines: u32) -> bool
        ensures taken { result ≡ true → spec.after_code self.old lines ≡ Some self.new }
        ensures refused { result ≡ false → (spec.after_code self.old lines ≡ None) × (self.new ≡ self.old) }
    {
        if !takes_bodies(self.stage) {
            return false;
        }
        self.stage = Stage::Main(lines);
        true
    }

    fn take_instruction(&mut self, alloc: Global, line: &Instr) -> Result<bool, NoMemory>
        ensures taken { IfOk result (λ taken. taken ≡ true → spec.after_instr self.old.stage self.old line.now ≡ Some self.new) }
        ensures refused { IfOk result (λ taken. taken ≡ false → (spec.after_instr self.old.stage self.old line.now ≡ None) × (self.new ≡ self.old)) }
    {
        match self.stage {
            Stage::BodyLines(left) => self.take_body_line(alloc, left, line),
            Stage::Main(left) => self.take_main_line(left, line),
            _ => Ok(false),
        }
    }

    fn take_body_line(&mut self, alloc: Global, left: u32, line: &Instr) -> Result<bool, NoMemory>
        ensures { IfOk result (λ taken. (taken ≡ true) × (spec.after_instr (Stage.BodyLines left) self.old line.now ≡ Some self.new)) }
    {
        push_instruction(&mut self.body.list, line)?;
        self.go_on_body(alloc, 0, left.saturating_sub(1))?;
        Ok(true)
    }

    fn take_main_line(&mut self, left: u32, line: &Instr) -> Result<bool, NoMemory>
        ensures taken { IfOk result (λ taken. taken ≡ true → spec.after_instr (Stage.Main left) self.old line.now ≡ Some self.new) }
        ensures refused { IfOk result (λ taken. taken ≡ false → (spec.after_instr (Stage.Main left) self.old line.now ≡ None) × (self.new ≡ self.old)) }
    {
        if left == 0 {
            return Ok(false);
        }
        push_instruction(&mut self.main, line)?;
        self.stage = Stage::Main(left - 1);
        Ok(true)
    }

    fn take_end(&mut self) -> bool
        ensures taken { result ≡ true → spec.after_end self.old.stage self.old ≡ Some self.new }
        ensures refused { result ≡ false → (spec.after_end self.old.stage self.old ≡ None) × (self.new ≡ self.old) }
    {
        match self.stage {
            Stage::Main(0) => {
                self.stage = Stage::Over;
                true
            }
            _ => false,
        }
    }

    /// The code as far as it was read.
    pub(crate) fn into_draft(self) -> Result<Draft, NoMemory>
        ensures { IfOk result (λ draft. draft ≡ spec.draft_of self) }
    {
        let Reading {
            stage,
            cases,
            names,
            slots,
            inputs,
            outputs,
            mut bodies,
            body,
            main,
        } = self;
        let mut body_lacks = 0;
        let mut main_lacks = 0;
        match stage {
            Stage::BodySlots(_, lines) | Stage::BodyLines(lines) => {
                bodies.push(body)?;
                body_lacks = lines;
            }
            Stage::Main(lines) => main_lacks = lines,
            _ => {}
        }
        Ok(Draft {
            cases,
            names,
            slots,
            inputs,
            outputs,
            bodies,
            main,
            body_lacks,
            main_lacks,
        })
    }
}
