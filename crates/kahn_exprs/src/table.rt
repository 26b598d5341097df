//! The table of a body as it stands.

ghost use Rattle.std.specs.Prelude.{◌≡◌, ◌<◌, ℕ, Some, None, IfOk, nat_lt, length};
ghost use Rattle.std.specs.Option.{option_copied};
ghost use Rattle.kahn_exprs.specs.Standing as own;
ghost use Rattle.kahn_model.specs.Table.{cell_in};
ghost use Rattle.ls_places.specs.declared.definition.Key.{Key as AKey};

use kahn_cells::search::nth;
use kahn_model::Cell;
use ls_base::NoMemory;
use ls_places::{Definition, Key};
use std::alloc::Global;

/// The rows of a body as they stand, with a cell for each line. Contracts ask them by keys and
/// instants (`table` of `specs/Standing`); what is out of range is not known.
#[derive(Drop)]
pub struct Rows {
    /// The number of the first clock name.
    first: usize,
    vars: Vec<Vec<Option<Cell>>>,
    starts: Vec<Vec<Option<Cell>>>,
    names: Vec<Vec<Option<Cell>>>,
    resets: Vec<Vec<Option<Cell>>>,
}

/// The row of this number.
fn kept(all: &[Vec<Option<Cell>>], k: usize) -> &[Option<Cell>]
    ensures { result.now ≡ own.row_at all.now k }
{
    match nth(all, k) {
        None => &[],
        Some(row) => row.as_slice(),
    }
}

/// The cell of a row at an instant, where it is known.
pub fn known(cells: &[Option<Cell>], i: usize) -> Option<&Cell>
    ensures { option_copied result ≡ cell_in cells.now i }
{
    match nth(cells, i) {
        None => None,
        Some(c) => c.as_ref(),
    }
}

/// Puts a cell into the row of this number, if it has a cell at the instant.
fn keep(all: &mut Vec<Vec<Option<Cell>>>, k: usize, i: usize, cell: Cell) -> bool
    ensures put { own.PutAt all.old.items k i cell result all.new.items }
    ensures there { result ≡ nat_lt i (length (own.row_at all.old.items k)) }
    ensures lengths { (j : ℕ) → length (own.row_at all.new.items j) ≡ length (own.row_at all.old.items j) }
{
    match all.get_mut(k) {
        None => false,
        Some(row) => match row.get_mut(i) {
            None => false,
            Some(c) => {
                *c = Some(cell);
                true
            }
        },
    }
}

/// A row of which nothing is known.
#[tactic(auto, using(crate::proofs::Standing::unknown_more))]
fn unknown_row(alloc: Global, lines: u32) -> Result<Vec<Option<Cell>>, NoMemory>
    ensures unknown { IfOk result (λ r. (i : ℕ) → cell_in r.items i ≡ None) }
    ensures length { IfOk result (λ r. length r.items ≡ lines) }
{
    let mut row = Vec::new(alloc);
    row.reserve(lines as usize)?;
    for _i in 0..lines {
        if row.push(None).is_err() {
            return Err(NoMemory);
        }
    }
    Ok(row)
}

/// Some rows of which nothing is known.
#[tactic(auto, using(crate::proofs::Standing::rows_more, crate::proofs::Standing::lengths_more))]
fn unknown_rows(alloc: Global, count: usize, lines: u32) -> Result<Vec<Vec<Option<Cell>>>, NoMemory>
    ensures unknown { IfOk result (λ r. (k i : ℕ) → cell_in (own.row_at r.items k) i ≡ None) }
    ensures lengths { IfOk result (λ r. (k : ℕ) → k < count → length (own.row_at r.items k) ≡ lines) }
{
    let mut all = Vec::new(alloc);
    for _k in 0..count {
        if all.push(unknown_row(alloc, lines)?).is_err() {
            return Err(NoMemory);
        }
    }
    Ok(all)
}

impl Rows {
    /// The rows of a definition's body, of which nothing is known.
    #[tactic(auto, using(crate::proofs::Standing::all_unknown, crate::proofs::Standing::all_lengths))]
    pub fn unknown(alloc: Global, def: &Definition, lines: u32) -> Result<Rows, NoMemory>
        ensures unknown { IfOk result (λ r. (k : AKey) (i : ℕ) → own.table r k i ≡ None) }
        ensures lengths { IfOk result (λ r. (k : AKey) → own.InRange def.now k → length (own.row r k) ≡ lines) }
    {
        let places = &def.places;
        Ok(Rows {
            first: def.params.len(),
            vars: unknown_rows(alloc, places.vars.len(), lines)?,
            starts: unknown_rows(alloc, places.vars.len(), lines)?,
            names: unknown_rows(alloc, places.names.len(), lines)?,
            resets: unknown_rows(alloc, places.resets.len(), lines)?,
        })
    }

    /// The row of a key.
    pub fn row(&self, key: Key) -> &[Option<Cell>]
        ensures { result.now ≡ own.row self.now key }
    {
        match key {
            Key::Var(x) => kept(self.vars.as_slice(), x as usize),
            Key::Start(x) => kept(self.starts.as_slice(), x as usize),
            Key::Name(m) => {
                let m = m as usize;
                if m < self.first {
                    return &[];
                }
                kept(self.names.as_slice(), m - self.first)
            }
            Key::Reset(r) => kept(self.resets.as_slice(), r as usize),
        }
    }

    /// The cell of a row at an instant, where it is known.
    pub fn read(&self, key: Key, i: usize) -> Option<&Cell>
        ensures { option_copied result ≡ own.table self.now key i }
    {
        known(self.row(key), i)
    }

    /// Puts a cell into a row, and tells whether it is there.
    pub fn put(&mut self, key: Key, i: usize, cell: Cell) -> bool
        ensures put { own.Put self.old key i cell result self.new }
        ensures there { result ≡ nat_lt i (length (own.row self.old key)) }
        ensures lengths { (k : AKey) → length (own.row self.new k) ≡ length (own.row self.old k) }
    {
        match key {
            Key::Var(x) => keep(&mut self.vars, x as usize, i, cell),
            Key::Start(x) => keep(&mut self.starts, x as usize, i, cell),
            Key::Name(m) => {
                let m = m as usize;
                if m < self.first {
                    return false;
                }
                keep(&mut self.names, m - self.first, i, cell)
            }
            Key::Reset(r) => keep(&mut self.resets, r as usize, i, cell),
        }
    }
}
