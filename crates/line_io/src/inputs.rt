ghost use Rattle.std.specs.Prelude.{◌≡◌, ◌+◌, ◌<◌, ◌≤◌, ℕ, List, length, slice_get, IfOk, IfSome, IfNone, IfErr, OnOk, OnErr, drop, All, replicate, take, set, IsTrue, ◌↔◌, Some};
ghost use Rattle.line_io.specs.declared.form.Cell.{Cell};
ghost use Rattle.line_io.specs.Cells.{IsLine, IsBadField, CellAt};
ghost use Rattle.line_io.specs.Fields.{Reads, ReadsAs};
ghost use Rattle.line_io.specs.Words.{words_of};

use crate::cells::cell_at;
use crate::form::Reading;
use crate::read::read_field;
use crate::words::next_word;
use crate::{Cell, Field, InputForm};
use ls_base::NoMemory;
use ls_value::Shape;
use std::alloc::{AllocError, Global};
use std::marker::Model;

/// The first field of a line that is bad, counted from 1.
#[derive(Clone, Copy, Debug, PartialEq, Eq)]
pub struct BadField(pub u32);

/// The cells of a line of input, one for each field of its form.
#[derive(Debug, Drop)]
pub struct Inputs {
    cells: Vec<Cell>,
    next: Vec<Cell>,
    readings: Vec<Reading>,
}

impl Model for Inputs {
    ghost use Rattle.std.specs.Prelude.{◌≡◌, List, length};
    ghost use Rattle.line_io.specs.declared.form.Cell.{Cell};

    ghost Value = { List Cell };

    ghost view = { λ i. i.cells.items };

    ghost invariant = { λ i. (length i.next.items ≡ length i.cells.items) × (length i.readings.items ≡ length i.cells.items) };
}

/// So many copies of an item.
pub(crate) fn filled<T: Copy>(alloc: Global, item: T, width: usize) -> Result<Vec<T>, AllocError>
    ensures { IfOk result (λ items. items.items ≡ replicate width item) }
{
    let mut items = Vec::new(alloc);
    for _made in 0..width {
        items.push(item)?;
    }
    Ok(items)
}

impl Inputs {
    /// A cell for each field, which is absent.
    pub fn new(alloc: Global, form: &InputForm) -> Result<Inputs, NoMemory>
        ensures { IfOk result (λ inputs. inputs ≡ replicate (length form.now.fields) Cell.Absent) }
    {
        let width = form.fields.len();
        Ok(Inputs {
            cells: filled(alloc, Cell::Absent, width)?,
            next: filled(alloc, Cell::Absent, width)?,
            readings: filled(alloc, Reading::Bad, width)?,
        })
    }

    /// The number of cells.
    pub fn len(&self) -> usize
        ensures { result ≡ length self.now }
    {
        self.cells.len()
    }

    /// The cell of a field, counted from 0.
    pub fn get(&self, at: usize) -> Option<Cell>
        ensures { result ≡ slice_get self.now at }
    {
        self.cells.get(at).copied()
    }
}

/// What the next field of a line from a place on reads as, and the place where it ends.
fn read_next(line: &[u8], from: usize, form: &InputForm, shape: Shape) -> (Reading, usize)
    requires { from ≤ length line.now }
    ensures reads { ReadsAs form.now shape (slice_get (words_of (drop from line.now)) 0) result.0 }
    ensures rest { words_of (drop result.1 line.now) ≡ drop 1 (words_of (drop from line.now)) }
    ensures within { result.1 ≤ length line.now }
{
    match next_word(line, from) {
        Some((start, end)) => (read_field(form, shape, &line[start..end]), end),
        None => (Reading::Bad, line.len()),
    }
}

/// Finds what each field of a line reads as, and answers whether the line has a field too many.
fn read_words(line: &[u8], form: &InputForm, readings: &mut [Reading]) -> bool
    requires { length readings.old ≡ length form.now.fields }
    ensures reads { Reads form.now line.now readings.new }
    ensures more { IsTrue result ↔ (length form.now.fields < length (words_of line.now)) }
{
    let fields = form.fields.as_slice();
    let mut from = 0;
    for at in 0..fields.len() {
        let (reading, end) = read_next(line, from, form, fields[at].shape);
        readings[at] = reading;
        from = end;
    }
    next_word(line, from).is_some()
}

/// Finds the cells of fields, or the place of the first that is bad.
fn find_cells(fields: &[Field], readings: &[Reading], cells: &mut [Cell]) -> Option<usize>
    requires { (length readings.now ≡ length fields.now) × (length cells.old ≡ length fields.now) }
    ensures all { IfNone result ((at : ℕ) (cell : Cell) → slice_get cells.new at ≡ Some cell → CellAt fields.now readings.now at cell) }
    ensures before { IfSome result (λ bad. (at : ℕ) → at < bad → (cell : Cell) × CellAt fields.now readings.now at cell) }
    ensures here { IfSome result (λ bad. (cell : Cell) → ¬ CellAt fields.now readings.now bad cell) }
    ensures within { IfSome result (λ bad. bad < length fields.now) }
{
    for at in 0..fields.len() {
        match cell_at(fields, readings, at) {
            Some(cell) => cells[at] = cell,
            None => return Some(at),
        }
    }
    None
}

/// Reads the fields of a line into the cells, one for each field of the form.
///
/// A field on a clock that is off is `.`, and one on a clock that is on spells a leaf of its
/// shape, unless it is of a signal that is not emitted, which has `.` for each leaf. Whether a
/// clock is on, and whether a signal is emitted, is told by fields of the same line. The first
/// field that is bad, missing or too many is the fault, and then the cells stay as they were.
pub fn read_inputs(line: &[u8], form: &InputForm, into: &mut Inputs) -> Result<(), BadField>
    requires { length into.old ≡ length form.now.fields }
    ensures spelled { OnOk result (IsLine form.now line.now into.new) }
    ensures bad { IfErr result (λ bad. IsBadField form.now line.now bad.0) }
    ensures none { IfErr result (λ _. (cells : List Cell) → ¬ IsLine form.now line.now cells) }
    ensures kept { OnErr result (into.new ≡ into.old) }
{
    let fields = form.fields.as_slice();
    let more = read_words(line, form, &mut into.readings);
    if let Some(bad) = find_cells(fields, &into.readings, &mut into.next) {
        return Err(BadField(bad as u32 + 1));
    }
    if more {
        return Err(BadField(fields.len() as u32 + 1));
    }
    into.cells.copy_from_slice(&into.next);
    Ok(())
}
