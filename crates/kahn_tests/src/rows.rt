//! Rows as text, with a word for each line.

use kahn_model::{Cell, Value};
use ls_base::{List, NoMemory};
use ls_value::{Glyph, Leaf, LeafBuf, read_int, write_leaf};
use std::alloc::Global;

/// The leaf of a word: a letter in quotes is a character, and `#k` the constructor at place k of the
/// first enumeration.
fn leaf(word: &[u8]) -> Leaf {
    match word {
        b"()" => Leaf::Unit,
        b"true" => Leaf::Bool(true),
        b"false" => Leaf::Bool(false),
        [b'\'', c, b'\''] => match Glyph::new(*c) {
            Some(glyph) => Leaf::Char(glyph),
            None => Leaf::Nil,
        },
        [b'#', digit @ b'0'..=b'9'] => Leaf::Enum(0, u32::from(*digit - b'0')),
        _ => match read_int(word) {
            Some(number) => Leaf::Int(number),
            None => Leaf::Nil,
        },
    }
}

/// The value of a word: leaves, or a tuple of leaves between parentheses.
fn value(alloc: Global, word: &str) -> Result<Value, NoMemory> {
    if word == "()" || !word.starts_with('(') {
        return Ok(Value::Leaf(leaf(word.as_bytes())));
    }
    let mut parts = List::new(alloc);
    for part in word.split(['(', ',', ')']) {
        if !part.is_empty() {
            parts.push(Value::Leaf(leaf(part.as_bytes())))?;
        }
    }
    Ok(Value::Tuple(parts))
}

/// The cell of a word: `.` is a signal that is not emitted.
fn cell(alloc: Global, word: &str) -> Result<Cell, NoMemory> {
    if word == "." {
        return Ok(Cell::Silent);
    }
    Ok(Cell::Present(value(alloc, word)?))
}

/// The row of some words.
pub fn row(alloc: Global, text: &str) -> Result<List<Option<Cell>>, NoMemory> {
    let mut done = List::new(alloc);
    for word in text.split_whitespace() {
        done.push(Some(cell(alloc, word)?))?;
    }
    Ok(done)
}

fn write_text(text: &str, out: &mut String) -> Result<(), NoMemory> {
    Ok(out.push_str(text)?)
}

fn write_value_leaf(leaf: Leaf, out: &mut String) -> Result<(), NoMemory> {
    let mut buf = LeafBuf::new();
    write_leaf(leaf, &mut buf);
    match std::str::from_utf8(buf.bytes()) {
        Ok(text) => write_text(text, out),
        Err(_) => write_text("?", out),
    }
}

/// Writes an integer in decimal.
pub fn write_integer(number: i64, out: &mut String) -> Result<(), NoMemory> {
    write_value_leaf(Leaf::Int(number), out)
}

#[cycle(values)]
fn write_parts(all: &[Value], out: &mut String) -> Result<(), NoMemory> {
    let mut first = true;
    for v in all {
        if !first {
            write_text(",", out)?;
        }
        write_value(v, out)?;
        first = false;
    }
    Ok(())
}

#[cycle(values)]
fn write_value(v: &Value, out: &mut String) -> Result<(), NoMemory> {
    match v {
        Value::Leaf(leaf) => write_value_leaf(*leaf, out),
        Value::Tuple(parts) => {
            write_text("(", out)?;
            write_parts(parts.as_slice(), out)?;
            write_text(")", out)
        }
    }
}

/// A cell: `?` is one that is not known, and `_` one whose clock is off.
fn write_cell(c: &Option<Cell>, out: &mut String) -> Result<(), NoMemory> {
    match c {
        None => write_text("?", out),
        Some(Cell::Absent) => write_text("_", out),
        Some(Cell::Silent) => write_text(".", out),
        Some(Cell::Present(v)) => write_value(v, out),
        Some(Cell::Chosen(_, _)) => write_text("chosen", out),
    }
}

/// A line of an answer: `!` is an alarm, and `??` one that is not known.
pub fn write_line(c: &Option<Cell>, alarm: Option<bool>, out: &mut String) -> Result<(), NoMemory> {
    match alarm {
        Some(true) => write_text("!", out),
        Some(false) => write_cell(c, out),
        None => write_text("??", out),
    }
}
