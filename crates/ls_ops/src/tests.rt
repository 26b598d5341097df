use crate::{Alarm, Op, OpSign, eval, evaluate, find_op, prefix, sign_of, symbol};
use ls_value::{Glyph, Leaf, Text};
use std::test::Fail;

#[test]
fn divisions(rt: HostRuntime) {
    let least = i64::MIN;
    assert!(rt;
        matches!(
            eval(Op::Div, &[Leaf::Int(7), Leaf::Int(-2)]),
            (Leaf::Int(-3), Alarm::None)
        )
    );
    assert!(rt;
        matches!(
            eval(Op::Rem, &[Leaf::Int(-7), Leaf::Int(2)]),
            (Leaf::Int(-1), Alarm::None)
        )
    );
    assert!(rt;
        matches!(
            eval(Op::Div, &[Leaf::Int(least), Leaf::Int(-1)]),
            (Leaf::Int(i64::MIN), Alarm::None)
        )
    );
    assert!(rt;
        matches!(
            eval(Op::Rem, &[Leaf::Int(least), Leaf::Int(-1)]),
            (Leaf::Int(0), Alarm::None)
        )
    );
    assert!(rt;
        matches!(
            eval(Op::Div, &[Leaf::Int(5), Leaf::Int(0)]),
            (Leaf::Int(0), Alarm::Division)
        )
    );
    assert!(rt;
        matches!(
            eval(Op::Rem, &[Leaf::Int(5), Leaf::Int(0)]),
            (Leaf::Int(0), Alarm::Division)
        )
    );
    assert!(rt;
        matches!(
            eval(Op::Div, &[Leaf::Nil, Leaf::Int(0)]),
            (Leaf::Nil, Alarm::None)
        )
    );
    assert!(rt;
        matches!(
            eval(Op::Div, &[Leaf::Int(5), Leaf::Nil]),
            (Leaf::Nil, Alarm::None)
        )
    );
}

#[test]
fn other_values(rt: HostRuntime) -> Result<(), Fail> {
    let text = Leaf::Text(Text::new(b"on").ok_or("no text")?);
    let other = Leaf::Text(Text::new(b"off").ok_or("no text")?);
    let letter = Leaf::Char(Glyph::new(b'g').ok_or("no character")?);
    assert!(rt;
        matches!(
            eval(Op::Equal, &[text, text]),
            (Leaf::Bool(true), Alarm::None)
        )
    );
    assert!(rt;
        matches!(
            eval(Op::Differ, &[text, other]),
            (Leaf::Bool(true), Alarm::None)
        )
    );
    assert!(rt;
        matches!(
            eval(Op::IntOfChar, &[letter]),
            (Leaf::Int(103), Alarm::None)
        )
    );
    assert!(rt;
        matches!(
            eval(Op::IsLetter, &[letter]),
            (Leaf::Bool(true), Alarm::None)
        )
    );
    assert!(rt;
        matches!(
            eval(Op::Odd, &[Leaf::Int(-3)]),
            (Leaf::Bool(true), Alarm::None)
        )
    );
    assert!(rt;
        matches!(
            eval(Op::Neg, &[Leaf::Int(i64::MIN)]),
            (Leaf::Int(i64::MIN), Alarm::None)
        )
    );
    assert!(rt;
        matches!(
            eval(
                Op::Choose,
                &[Leaf::Bool(false), Leaf::Enum(2, 0), Leaf::Enum(2, 1)]
            ),
            (Leaf::Enum(2, 1), Alarm::None)
        )
    );
    assert!(rt;
        matches!(
            eval(Op::Choose, &[Leaf::Bool(true), text, Leaf::Nil]),
            (Leaf::Nil, Alarm::None)
        )
    );
    assert!(rt;
        matches!(
            evaluate(Op::Rem, &[Leaf::Int(7), Leaf::Unit]),
            (Leaf::Nil, Alarm::None)
        )
    );
    Ok(())
}

#[test]
fn columns_of_the_table(rt: HostRuntime) {
    assert_eq!(rt; symbol(Op::Neg), "~-");
    assert_eq!(rt; sign_of(Op::Choose), OpSign::Choice);
    assert_eq!(rt; sign_of(Op::Max).arity(), 2);
    assert_eq!(rt; find_op("mod"), Some(Op::Rem));
    assert_eq!(rt; find_op("modulo"), None);
    assert!(rt; prefix(Op::IsLetter));
    assert!(rt; !prefix(Op::Not));
}
