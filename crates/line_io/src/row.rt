ghost use Rattle.std.specs.Prelude.{◌≡◌, ◌<◌, ◌≤◌, ◌+◌, ◌++◌, ◌∷◌, [], length, slice_get, IfOk, OnOk, OnErr, All, replicate, set};
ghost use Rattle.std.specs.Option.{option_map};
ghost use Rattle.ls_base.specs.Outside.{Rose, WritesFront};
ghost use Rattle.line_io.specs.declared.form.Cell.{Cell};
ghost use Rattle.line_io.specs.Rows.{Begins, HasCase, IsWritable, case_spelling, cell_text, leaf_text, rest_text, cells_text, row_text};
ghost use Rattle.ls_value.specs.declared.leaf.Leaf.TheVariants.{Enum};

use crate::inputs::filled;
use crate::{Cell, InputForm};
use arrayvec::ArrayVec;
use ls_base::{Failed, NoMemory, Sink, write_all};
use ls_value::{Leaf, LeafBuf, write_leaf};
use std::alloc::Global;
use std::marker::Model;

/// The bytes that are held back at most.
const ROOM: usize = 4_096;

/// The cells of a line of output.
#[derive(Debug, Drop)]
pub struct OutRow {
    cells: Vec<Cell>,
}

impl Model for OutRow {
    ghost use Rattle.std.specs.Prelude.{List};
    ghost use Rattle.line_io.specs.declared.form.Cell.{Cell};

    ghost Value = { List Cell };

    ghost view = { λ row. row.cells.items };
}

impl OutRow {
    /// So many cells, each of which is absent.
    pub fn new(alloc: Global, width: usize) -> Result<OutRow, NoMemory>
        ensures { IfOk result (λ row. row ≡ replicate width Cell.Absent) }
    {
        Ok(OutRow {
            cells: filled(alloc, Cell::Absent, width)?,
        })
    }

    /// The number of cells.
    pub fn len(&self) -> usize
        ensures { result ≡ length self.now }
    {
        self.cells.len()
    }

    /// The cell at a place, counted from 0.
    pub fn get(&self, at: usize) -> Option<Cell>
        ensures { result ≡ slice_get self.now at }
    {
        self.cells.get(at).copied()
    }

    /// Changes the cell at a place.
    pub fn set(&mut self, at: usize, cell: Cell)
        requires { at < length self.old }
        ensures { self.new ≡ set self.old at cell }
    {
        self.cells[at] = cell;
    }
}

/// Puts bytes behind those that are held back, and writes these first where there is no room.
fn put<K: Sink>(pending: &mut ArrayVec<u8, ROOM>, bytes: &[u8], out: &mut K) -> Result<(), Failed>
    ensures all { OnOk result (Begins (K.written out.old) (pending.old.items ++ bytes.now) (K.written out.new) pending.new.items) }
    ensures front { OnErr result (WritesFront (K.written out.old) (pending.old.items ++ bytes.now) (K.written out.new)) }
    ensures failed { OnErr result (Rose (K.count out.old) (K.count out.new)) }
    ensures counted { K.count out.old ≤ K.count out.new }
{
    if pending.try_extend_from_slice(bytes).is_ok() {
        return Ok(());
    }
    if let Err(failed) = write_all(out, pending.as_slice()) {
        return Err(failed);
    }
    pending.clear();
    if pending.try_extend_from_slice(bytes).is_ok() {
        return Ok(());
    }
    match write_all(out, bytes) {
        Ok(()) => Ok(()),
        Err(failed) => Err(failed),
    }
}

/// The spelling of the name of a constructor.
fn spell_case(enumeration: u32, place: u32, form: &InputForm) -> &str
    requires { HasCase form.now enumeration place }
    ensures { result.now ≡ leaf_text form.now (Enum enumeration place) }
{
    let Some(cases) = form.cases.get(enumeration as usize) else {
        unreachable!();
    };
    let Some(name) = cases.get(place as usize) else {
        unreachable!();
    };
    match form.names.spell(*name) {
        Some(spelling) => spelling,
        None => unreachable!(),
    }
}

/// Puts the name of a constructor.
fn put_case<K: Sink>(
    enumeration: u32,
    place: u32,
    form: &InputForm,
    pending: &mut ArrayVec<u8, ROOM>,
    out: &mut K,
) -> Result<(), Failed>
    requires { HasCase form.now enumeration place }
    ensures all { OnOk result (Begins (K.written out.old) (pending.old.items ++ leaf_text form.now (Enum enumeration place)) (K.written out.new) pending.new.items) }
    ensures front { OnErr result (WritesFront (K.written out.old) (pending.old.items ++ leaf_text form.now (Enum enumeration place)) (K.written out.new)) }
    ensures failed { OnErr result (Rose (K.count out.old) (K.count out.new)) }
    ensures counted { K.count out.old ≤ K.count out.new }
{
    put(
        pending,
        spell_case(enumeration, place, form).as_bytes(),
        out,
    )
}

/// Puts a cell.
fn put_cell<K: Sink>(
    cell: &Cell,
    form: &InputForm,
    pending: &mut ArrayVec<u8, ROOM>,
    out: &mut K,
) -> Result<(), Failed>
    requires { IsWritable form.now cell.now }
    ensures all { OnOk result (Begins (K.written out.old) (pending.old.items ++ cell_text form.now cell.now) (K.written out.new) pending.new.items) }
    ensures front { OnErr result (WritesFront (K.written out.old) (pending.old.items ++ cell_text form.now cell.now) (K.written out.new)) }
    ensures failed { OnErr result (Rose (K.count out.old) (K.count out.new)) }
    ensures counted { K.count out.old ≤ K.count out.new }
{
    match cell {
        Cell::Absent | Cell::NotEmitted => put(pending, b".", out),
        Cell::Leaf(Leaf::Enum(enumeration, place)) => put_case(
            *enumeration,
            *place,
            form,
            pending,
            out,
        ),
        Cell::Leaf(leaf) => {
            let mut text = LeafBuf::new();
            write_leaf(*leaf, &mut text);
            put(pending, text.bytes(), out)
        }
    }
}

/// Puts a space and a cell.
fn put_next<K: Sink>(
    cell: &Cell,
    form: &InputForm,
    pending: &mut ArrayVec<u8, ROOM>,
    out: &mut K,
) -> Result<(), Failed>
    requires { IsWritable form.now cell.now }
    ensures all { OnOk result (Begins (K.written out.old) (pending.old.items ++ 32 ∷ cell_text form.now cell.now) (K.written out.new) pending.new.items) }
    ensures front { OnErr result (WritesFront (K.written out.old) (pending.old.items ++ 32 ∷ cell_text form.now cell.now) (K.written out.new)) }
    ensures failed { OnErr result (Rose (K.count out.old) (K.count out.new)) }
    ensures counted { K.count out.old ≤ K.count out.new }
{
    if let Err(failed) = put(pending, b" ", out) {
        return Err(failed);
    }
    match put_cell(cell, form, pending, out) {
        Ok(()) => Ok(()),
        Err(failed) => Err(failed),
    }
}

/// Puts cells, each behind a space.
fn put_rest<K: Sink>(
    cells: &[Cell],
    form: &InputForm,
    pending: &mut ArrayVec<u8, ROOM>,
    out: &mut K,
) -> Result<(), Failed>
    requires { All (IsWritable form.now) cells.now }
    ensures all { OnOk result (Begins (K.written out.old) (pending.old.items ++ rest_text form.now cells.now) (K.written out.new) pending.new.items) }
    ensures front { OnErr result (WritesFront (K.written out.old) (pending.old.items ++ rest_text form.now cells.now) (K.written out.new)) }
    ensures failed { OnErr result (Rose (K.count out.old) (K.count out.new)) }
    ensures counted { K.count out.old ≤ K.count out.new }
{
    for cell in cells {
        if let Err(failed) = put_next(cell, form, pending, out) {
            return Err(failed);
        }
    }
    Ok(())
}

/// Puts cells with a space between them.
fn put_cells<K: Sink>(
    cells: &[Cell],
    form: &InputForm,
    pending: &mut ArrayVec<u8, ROOM>,
    out: &mut K,
) -> Result<(), Failed>
    requires { All (IsWritable form.now) cells.now }
    ensures all { OnOk result (Begins (K.written out.old) (pending.old.items ++ cells_text form.now cells.now) (K.written out.new) pending.new.items) }
    ensures front { OnErr result (WritesFront (K.written out.old) (pending.old.items ++ cells_text form.now cells.now) (K.written out.new)) }
    ensures failed { OnErr result (Rose (K.count out.old) (K.count out.new)) }
    ensures counted { K.count out.old ≤ K.count out.new }
{
    let [first, rest @ ..] = cells else {
        return Ok(());
    };
    if let Err(failed) = put_cell(first, form, pending, out) {
        return Err(failed);
    }
    match put_rest(rest, form, pending, out) {
        Ok(()) => Ok(()),
        Err(failed) => Err(failed),
    }
}

/// Puts the cells of a row as a line.
fn put_line<K: Sink>(
    cells: &[Cell],
    form: &InputForm,
    pending: &mut ArrayVec<u8, ROOM>,
    out: &mut K,
) -> Result<(), Failed>
    requires { All (IsWritable form.now) cells.now }
    ensures all { OnOk result (Begins (K.written out.old) (pending.old.items ++ row_text form.now cells.now) (K.written out.new) pending.new.items) }
    ensures front { OnErr result (WritesFront (K.written out.old) (pending.old.items ++ row_text form.now cells.now) (K.written out.new)) }
    ensures failed { OnErr result (Rose (K.count out.old) (K.count out.new)) }
    ensures counted { K.count out.old ≤ K.count out.new }
{
    if let Err(failed) = put_cells(cells, form, pending, out) {
        return Err(failed);
    }
    match put(pending, b"\n", out) {
        Ok(()) => Ok(()),
        Err(failed) => Err(failed),
    }
}

/// Rows that are held back, so that many of them are written at once. It takes no memory.
#[derive(Drop)]
pub struct RowBuffer {
    pending: ArrayVec<u8, ROOM>,
}

impl Model for RowBuffer {
    ghost use Rattle.std.specs.Prelude.{List, ℕ};

    ghost Value = { List ℕ };

    ghost view = { λ b. b.pending.items };
}

impl RowBuffer {
    /// A buffer that holds nothing back.
    pub fn new() -> RowBuffer
        ensures { result ≡ [] }
    {
        RowBuffer {
            pending: ArrayVec::new(),
        }
    }

    /// Puts a row behind those that are held back: its cells joined by one space, and a newline. A
    /// cell that is absent or not emitted is `.`, and a constructor is put by its name. Where
    /// there is no room, what is held back is written first. After a fault a front of all that was
    /// held back and of the row is written.
    pub fn put_row<K: Sink>(
        &mut self,
        row: &OutRow,
        form: &InputForm,
        out: &mut K,
    ) -> Result<(), Failed>
        requires { All (IsWritable form.now) row.now }
        ensures all { OnOk result (Begins (K.written out.old) (self.old ++ row_text form.now row.now) (K.written out.new) self.new) }
        ensures front { OnErr result (WritesFront (K.written out.old) (self.old ++ row_text form.now row.now) (K.written out.new)) }
        ensures failed { OnErr result (Rose (K.count out.old) (K.count out.new)) }
        ensures counted { K.count out.old ≤ K.count out.new }
    {
        put_line(&row.cells, form, &mut self.pending, out)
    }

    /// Writes what is held back.
    pub fn flush<K: Sink>(&mut self, out: &mut K) -> Result<(), Failed>
        ensures empty { OnOk result (self.new ≡ []) }
        ensures written { OnOk result (K.written out.new ≡ option_map (λ text. text ++ self.old) (K.written out.old)) }
        ensures front { OnErr result (WritesFront (K.written out.old) self.old (K.written out.new)) }
        ensures failed { OnErr result (Rose (K.count out.old) (K.count out.new)) }
        ensures counted { K.count out.old ≤ K.count out.new }
    {
        match write_all(out, self.pending.as_slice()) {
            Ok(()) => {
                self.pending.clear();
                Ok(())
            }
            Err(failed) => Err(failed),
        }
    }
}

/// Writes a row as a line: its cells joined by one space, and a newline. A cell that is absent or
/// not emitted is `.`, and a constructor is written by its name. A row of at most 4,096 bytes is
/// handed to the sink at once. After a fault a front of the line is written.
pub fn write_row<K: Sink>(row: &OutRow, form: &InputForm, out: &mut K) -> Result<(), Failed>
    requires { All (IsWritable form.now) row.now }
    ensures written { OnOk result (K.written out.new ≡ option_map (λ text. text ++ row_text form.now row.now) (K.written out.old)) }
    ensures front { OnErr result (WritesFront (K.written out.old) (row_text form.now row.now) (K.written out.new)) }
    ensures failed { OnErr result (Rose (K.count out.old) (K.count out.new)) }
    ensures counted { K.count out.old ≤ K.count out.new }
{
    let mut rows = RowBuffer::new();
    if let Err(failed) = rows.put_row(row, form, out) {
        return Err(failed);
    }
    match rows.flush(out) {
        Ok(()) => Ok(()),
        Err(failed) => Err(failed),
    }
}
