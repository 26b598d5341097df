use crate::{
    BadLeaf, Glyph, Leaf, LeafBuf, Shape, Text, read_char, read_int, read_leaf, read_text,
    write_leaf,
};
use std::test::Fail;

#[test]
fn leaves_and_their_codes(rt: HostRuntime) -> Result<(), Fail> {
    let quote = Glyph::new(b'\'').ok_or("a character")?;
    let newline = Glyph::new(b'\n').ok_or("a character")?;
    let double = Glyph::new(b'"').ok_or("a character")?;
    let text = Text::new(b"a'\"\\\n\t ").ok_or("a string")?;
    let empty = Text::new(b"").ok_or("a string")?;
    let table: [(Leaf, Shape, &[u8]); 17] = [
        (Leaf::Nil, Shape::Int, b"nil"),
        (Leaf::Nil, Shape::Unit, b"nil"),
        (Leaf::Int(0), Shape::Int, b"0"),
        (Leaf::Int(-17), Shape::Int, b"-17"),
        (Leaf::Int(120), Shape::Int, b"120"),
        (Leaf::Int(i64::MAX), Shape::Int, b"9223372036854775807"),
        (Leaf::Int(i64::MIN), Shape::Int, b"-9223372036854775808"),
        (Leaf::Bool(true), Shape::Bool, b"true"),
        (Leaf::Bool(false), Shape::Bool, b"false"),
        (Leaf::Char(quote), Shape::Char, b"'\\''"),
        (Leaf::Char(newline), Shape::Char, b"'\\n'"),
        (Leaf::Char(double), Shape::Char, b"'\"'"),
        (Leaf::Text(text), Shape::Text, b"\"a'\\\"\\\\\\n\\t \""),
        (Leaf::Text(empty), Shape::Text, b"\"\""),
        (Leaf::Enum(0, 12), Shape::Enum(0), b"#0.12"),
        (
            Leaf::Enum(4294967295, 0),
            Shape::Enum(4294967295),
            b"#4294967295.0",
        ),
        (Leaf::Unit, Shape::Unit, b"()"),
    ];
    let mut code = LeafBuf::new();
    for (leaf, shape, bytes) in &table {
        write_leaf(*leaf, &mut code);
        assert_eq!(rt; code.bytes(), *bytes);
        let back = read_leaf(bytes, *shape).ok().ok_or("a leaf")?;
        assert!(rt; back.same(leaf), "at {bytes:?}");
    }
    Ok(())
}

#[test]
fn no_codes(rt: HostRuntime) {
    let table: [(&[u8], Shape); 24] = [
        (b"", Shape::Int),
        (b"-0", Shape::Int),
        (b"007", Shape::Int),
        (b"+1", Shape::Int),
        (b"-", Shape::Int),
        (b"1 ", Shape::Int),
        (b"9223372036854775808", Shape::Int),
        (b"true", Shape::Int),
        (b"nil ", Shape::Int),
        (b"True", Shape::Bool),
        (b"1", Shape::Bool),
        (b"'\\\"'", Shape::Char),
        (b"''", Shape::Char),
        (b"'''", Shape::Char),
        (b"'ab'", Shape::Char),
        (b"\"\\'\"", Shape::Text),
        (b"\"a", Shape::Text),
        (b"\"a\"b\"", Shape::Text),
        (b"#1.2", Shape::Enum(2)),
        (b"#1.02", Shape::Enum(1)),
        (b"#01.2", Shape::Enum(1)),
        (b"#1.", Shape::Enum(1)),
        (b"#1.4294967296", Shape::Enum(1)),
        (b"( )", Shape::Unit),
    ];
    for (bytes, shape) in &table {
        let read = read_leaf(bytes, *shape);
        assert!(rt; read.is_err(), "at {bytes:?}");
    }
}

#[test]
fn fields(rt: HostRuntime) -> Result<(), Fail> {
    assert_eq!(rt; read_int(b"-0"), Some(0));
    assert_eq!(rt; read_int(b"-007"), Some(-7));
    assert_eq!(rt; read_int(b"+7"), None);
    assert_eq!(rt; read_int(b"--7"), None);
    assert_eq!(rt; read_int(b""), None);
    assert_eq!(rt; read_int(b"9223372036854775808"), None);
    let double = read_char(b"'\\\"'").ok_or("a character")?;
    assert_eq!(rt; double.byte(), b'"');
    assert!(rt; read_char(b"'\n'").is_none());
    let text = read_text(b"\"\\'\\n\"").ok_or("a string")?;
    assert_eq!(rt; text.bytes(), b"'\n".as_slice());
    assert!(rt; read_text(b"\"\\q\"").is_none());
    assert!(rt; Text::new(&[97; 63]).is_some());
    assert!(rt; Text::new(&[97; 64]).is_none());
    assert!(rt; Text::new(&[127]).is_none());
    Ok(())
}
