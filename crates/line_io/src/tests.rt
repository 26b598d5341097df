ghost use Rattle.std.specs.Prelude.{◌≡◌, ◌<◌, ◌≤◌, None, Some, All, OnOk, OnErr, IfOk, IfSome, length};
ghost use Rattle.std.specs.Bool.{OnTrue};
ghost use Rattle.line_io.specs.Rows.{HasCase, IsWritable};
ghost use Rattle.line_io.specs.declared.form.InputForm.{InputForm};

use crate::{
    BadField, Cell, Field, InputForm, Inputs, LineBuf, Next, OutRow, read_inputs, write_row,
};
use ls_base::{Failed, List, MemSink, MemSource, Names, NoMemory, NoteCopy, Sink, Source};
use ls_value::{Glyph, Leaf, Shape};
use std::alloc::Global;
use std::test::Fail;

fn source(alloc: Global, text: &[u8], piece: usize, fails: &[u64]) -> Result<MemSource, NoMemory>
    requires { 1 ≤ piece }
{
    Ok(MemSource::new(text.to_vec(alloc)?, piece, fails.to_vec(alloc)?))
}

#[test]
fn lines_come_in_pieces(rt: HostRuntime) -> Result<(), Fail> {
    let mut source = source(rt.alloc(), b"1\n2\n", 2, &[1])?;
    let mut buffer = LineBuf::new(rt.alloc())?;
    for (call, (next, line)) in [
        (Next::Line, "1"),
        (Next::ReadFault, ""),
        (Next::Line, "2"),
        (Next::End, ""),
        (Next::End, ""),
    ]
    .iter()
    .enumerate()
    {
        assert_eq!(rt; buffer.next_line(&mut source), *next, "call {call}");
        assert_eq!(rt; buffer.line(), line.as_bytes(), "call {call}");
    }
    Ok(())
}

#[test]
fn a_last_line_needs_no_newline(rt: HostRuntime) -> Result<(), Fail> {
    let mut source = source(rt.alloc(), b"\nab\n\nc", 1, &[])?;
    let mut buffer = LineBuf::new(rt.alloc())?;
    for line in ["", "ab", "", "c"] {
        assert_eq!(rt; buffer.next_line(&mut source), Next::Line, "{line}");
        assert_eq!(rt; buffer.line(), line.as_bytes(), "{line}");
    }
    assert_eq!(rt; buffer.next_line(&mut source), Next::End);
    Ok(())
}

#[test]
fn a_line_may_have_65536_bytes(rt: HostRuntime) -> Result<(), Fail> {
    let text = vec![in rt.alloc(); b'0'; 65_537]?;
    let mut fits = source(rt.alloc(), &text[1..], 10_000, &[])?;
    let mut buffer = LineBuf::new(rt.alloc())?;
    assert_eq!(rt; buffer.next_line(&mut fits), Next::Line);
    assert_eq!(rt; buffer.line().len(), 65_536);
    assert_eq!(rt; buffer.next_line(&mut fits), Next::End);
    let mut long = source(rt.alloc(), &text, 10_000, &[])?;
    assert_eq!(rt; buffer.next_line(&mut long), Next::LongLine);
    assert_eq!(rt; buffer.next_line(&mut long), Next::LongLine);
    Ok(())
}

/// A source that has no bytes left after its first read, and keeps how many bytes it was lent and
/// gave.
#[derive(Drop)]
struct Watched {
    first: bool,
    lent: usize,
    gave: usize,
}

impl Source for Watched {
    ghost left = { λ _. None };

    ghost gave = { λ s. s.gave };

    ghost count = { λ _. 0 };

    fn read(&mut self, into: &mut [u8]) -> Result<usize, Failed> {
        self.lent = into.len();
        self.gave = 0;
        if !self.first || into.len() < 4 {
            return Ok(0);
        }
        self.first = false;
        self.gave = 4;
        into[..4].copy_from_slice(b"1\n23");
        Ok(4)
    }

    fn faults(&self) -> u64 {
        0
    }
}

#[test]
fn a_read_is_lent_all_the_room(rt: HostRuntime) -> Result<(), Fail> {
    let mut source = Watched {
        first: true,
        lent: 0,
        gave: 0,
    };
    let mut buffer = LineBuf::new(rt.alloc())?;
    for (next, lent) in [
        (Next::Line, 65_537),
        (Next::Line, 65_535),
        (Next::End, 65_537),
    ] {
        assert_eq!(rt; buffer.next_line(&mut source), next);
        assert_eq!(rt; source.lent, lent);
    }
    Ok(())
}

fn field(
    alloc: Global,
    shape: Shape,
    on: &[(u32, Leaf)],
    signal: Option<u32>,
) -> Result<Field, NoMemory> {
    let mut clock = List::new(alloc);
    for (at, leaf) in on {
        clock.push((*at, *leaf))?;
    }
    Ok(Field {
        shape,
        on: clock,
        signal,
    })
}

/// A form with the enumeration of `Off` and `On`.
fn form(alloc: Global, first: Field, second: Field) -> Result<InputForm, NoMemory> {
    let mut names = Names::new(alloc);
    let mut lamp = List::new(alloc);
    lamp.push(names.add("Off")?)?;
    lamp.push(names.add("On")?)?;
    let mut cases = List::new(alloc);
    cases.push(lamp)?;
    let mut fields = List::new(alloc);
    fields.push(first)?;
    fields.push(second)?;
    Ok(InputForm {
        fields,
        cases,
        names,
    })
}

/// The cells that a line gives, printed, or the bad field.
fn cells_of(alloc: Global, form: &InputForm, line: &[u8]) -> Result<String, NoMemory> {
    let mut inputs = Inputs::new(alloc, form)?;
    let text = match read_inputs(line, form, &mut inputs) {
        Ok(()) => format!(in alloc; "{:?} {:?}", inputs.get(0), inputs.get(1))?,
        Err(BadField(number)) => format!(in alloc; "bad {number} of {}", inputs.len())?,
    };
    Ok(text)
}

#[test]
fn a_clock_tells_what_a_field_may_be(rt: HostRuntime) -> Result<(), Fail> {
    let alloc = rt.alloc();
    let clock = field(alloc, Shape::Bool, &[], None)?;
    let value = field(alloc, Shape::Int, &[(0, Leaf::Bool(true))], None)?;
    let form = form(alloc, clock, value)?.copy(alloc)?;
    for (line, want) in [
        ("true 4", "Some(Leaf(Bool(true))) Some(Leaf(Int(4)))"),
        ("false .", "Some(Leaf(Bool(false))) Some(Absent)"),
        ("\tfalse .  \r", "Some(Leaf(Bool(false))) Some(Absent)"),
        ("false 4", "bad 2 of 2"),
        ("true .", "bad 2 of 2"),
        ("true", "bad 2 of 2"),
        ("true 4 5", "bad 3 of 2"),
        ("true -007", "Some(Leaf(Bool(true))) Some(Leaf(Int(-7)))"),
        ("true +7", "bad 2 of 2"),
        ("maybe .", "bad 1 of 2"),
        ("", "bad 1 of 2"),
    ] {
        assert_eq!(rt;
            cells_of(alloc, &form, line.as_bytes())?.as_str(),
            want,
            "{line}"
        );
    }
    assert_eq!(rt; cells_of(alloc, &form, &[255])?.as_str(), "bad 1 of 2");
    Ok(())
}

#[test]
fn a_signal_is_whole_or_not_there(rt: HostRuntime) -> Result<(), Fail> {
    let alloc = rt.alloc();
    let first = field(alloc, Shape::Enum(0), &[], Some(7))?;
    let second = field(alloc, Shape::Char, &[], Some(7))?;
    let form = form(alloc, first, second)?;
    for (line, want) in [
        (". .", "Some(NotEmitted) Some(NotEmitted)"),
        ("On .", "bad 2 of 2"),
        (". 'a'", "bad 2 of 2"),
        ("Dim 'a'", "bad 1 of 2"),
        ("On 'a", "bad 2 of 2"),
        ("On 'a'b", "bad 2 of 2"),
        ("On 'a' 'b'", "bad 3 of 2"),
    ] {
        assert_eq!(rt;
            cells_of(alloc, &form, line.as_bytes())?.as_str(),
            want,
            "{line}"
        );
    }
    let text = cells_of(alloc, &form, b"On ' '")?;
    assert!(rt; text.starts_with("Some(Leaf(Enum(0, 1))) Some(Leaf(Char("));
    Ok(())
}

fn has_case(form: &InputForm, enumeration: u32, place: u32) -> bool
    ensures { OnTrue result (HasCase form.now enumeration place) }
{
    let Some(cases) = form.cases.get(enumeration as usize) else {
        return false;
    };
    match cases.get(place as usize) {
        Some(name) => (name.0 as usize) < form.names.len(),
        None => false,
    }
}

/// A row with a cell of each kind.
fn row_of(alloc: Global, character: Glyph) -> Result<OutRow, NoMemory>
    ensures { IfOk result (λ row. (length row ≡ 8) × ((form : InputForm) → HasCase form 0 1 → All (IsWritable form) row)) }
{
    let mut row = OutRow::new(alloc, 8)?;
    row.set(0, Cell::Leaf(Leaf::Int(-3)));
    row.set(2, Cell::NotEmitted);
    row.set(3, Cell::Leaf(Leaf::Char(character)));
    row.set(4, Cell::Leaf(Leaf::Enum(0, 1)));
    row.set(5, Cell::Leaf(Leaf::Unit));
    row.set(6, Cell::Leaf(Leaf::Nil));
    row.set(7, Cell::Leaf(Leaf::Bool(true)));
    Ok(row)
}

#[test]
fn a_row_is_written_as_a_line(rt: HostRuntime) -> Result<(), Fail> {
    let alloc = rt.alloc();
    let first = field(alloc, Shape::Unit, &[], None)?;
    let second = field(alloc, Shape::Unit, &[], None)?;
    let form = form(alloc, first, second)?;
    assert!(rt; has_case(&form, 0, 1));
    let Some(character) = Glyph::new(b'\n') else {
        return Ok(());
    };
    let row = row_of(alloc, character)?;
    assert_eq!(rt; row.len(), 8);
    assert!(rt; matches!(row.get(2), Some(Cell::NotEmitted)));
    let mut out = MemSink::new(alloc, 64, [1].to_vec(alloc)?)?;
    assert_eq!(rt; write_row(&row, &form, &mut out), Ok(()));
    let line = b"-3 . . '\\n' On () nil true\n".as_slice();
    assert_eq!(rt; out.written(), line);
    assert_eq!(rt; write_row(&row, &form, &mut out), Err(Failed));
    assert_eq!(rt; out.written(), line);
    let mut small = MemSink::new(alloc, 5, Vec::new(alloc))?;
    assert_eq!(rt; write_row(&row, &form, &mut small), Err(Failed));
    assert!(rt; b"-3 . ".as_slice().starts_with(small.written()));
    Ok(())
}
