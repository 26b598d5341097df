//! The table of the operators, and what is read off it.

ghost use Rattle.std.specs.Prelude.{◌≡◌, ◌≢◌, IfSome, IfNone, Some, if◌then◌else◌};
ghost use Rattle.ls_ops.specs.declared.kinds.Op.{Op};
ghost use Rattle.ls_ops.specs.Signature.{symbol_of, signature_of, is_prefix};
ghost use Rattle.ls_ops.specs.Symbols.{entries, all_entries};
ghost use Rattle.ls_ops.specs.Values.{Takes, TakesAt, result_shape, value_of, alarm_of};
ghost use Rattle.std.specs.List.{Contains};
ghost use Rattle.ls_value.specs.Spelling.{Fits};
ghost use Rattle.ls_value.specs.declared.leaf.Shape.{Shape};

use crate::operands::{bool_of, bools_of, char_of, choice_of, int_of, ints_of, same_of};
use crate::results::{int, is_digit, is_letter, quotient, remainder, truth};
use crate::symbols::{OPERATORS, OpTable};
use crate::{Alarm, Op, OpSign};
use ls_value::Leaf;

/// The operators, a row for each: its symbol, whether it stands before or between its operands,
/// what it takes, and its value on operands none of which is Nil. `operators!(column, ..)` writes
/// what one column holds.
macro_rules! operators {
    (@symbols ($op:expr) $($name:ident $symbol:literal $place:ident $sign:expr, $read:ident $operands:pat => $value:expr;)*) => {
        match $op { $(Op::$name => $symbol,)* }
    };
    (@signs ($op:expr) $($name:ident $symbol:literal $place:ident $sign:expr, $read:ident $operands:pat => $value:expr;)*) => {
        match $op { $(Op::$name => $sign,)* }
    };
    (@prefixes ($op:expr) $($name:ident $symbol:literal $place:ident $sign:expr, $read:ident $operands:pat => $value:expr;)*) => {
        match $op { $(Op::$name => operators!(@is_before $place),)* }
    };
    (@is_before before) => { true };
    (@is_before between) => { false };
    (@rows () $($name:ident $symbol:literal $place:ident $sign:expr, $read:ident $operands:pat => $value:expr;)*) => {
        [$((Op::$name, $symbol),)*]
    };
    (@values ($op:expr, $args:expr) $($name:ident $symbol:literal $place:ident $sign:expr, $read:ident $operands:pat => $value:expr;)*) => {
        match $op {
            $(Op::$name => match $read($args) {
                Some($operands) => $value,
                None => (Leaf::Nil, Alarm::None),
            },)*
        }
    };
    ($column:ident $(, $given:expr)*) => {
        operators! {
            @$column ($($given),*)
            Add "+" between OpSign::Ints(2), ints_of (a, b) => int(a.wrapping_add(b));
            Sub "-" between OpSign::Ints(2), ints_of (a, b) => int(a.wrapping_sub(b));
            Mul "*" between OpSign::Ints(2), ints_of (a, b) => int(a.wrapping_mul(b));
            Div "/" between OpSign::Ints(2), ints_of (a, b) => quotient(a, b);
            Rem "mod" between OpSign::Ints(2), ints_of (a, b) => remainder(a, b);
            Neg "~-" between OpSign::Ints(1), int_of a => int(a.wrapping_neg());
            Less "<" between OpSign::IntPred(2), ints_of (a, b) => truth(a < b);
            LessEq "<=" between OpSign::IntPred(2), ints_of (a, b) => truth(a <= b);
            Greater ">" between OpSign::IntPred(2), ints_of (a, b) => truth(a > b);
            GreaterEq ">=" between OpSign::IntPred(2), ints_of (a, b) => truth(a >= b);
            Equal "=" between OpSign::Same, same_of same => truth(same);
            Differ "<>" between OpSign::Same, same_of same => truth(!same);
            Not "not" between OpSign::Bools(1), bool_of a => truth(!a);
            And "&" between OpSign::Bools(2), bools_of (a, b) => truth(a && b);
            Or "or" between OpSign::Bools(2), bools_of (a, b) => truth(a || b);
            Xor "xor" between OpSign::Bools(2), bools_of (a, b) => truth(a != b);
            Choose "if" between OpSign::Choice, choice_of chosen => (chosen, Alarm::None);
            Min "min" before OpSign::Ints(2), ints_of (a, b) => int(a.min(b));
            Max "max" before OpSign::Ints(2), ints_of (a, b) => int(a.max(b));
            Sign "sign" before OpSign::Ints(1), int_of a => int(a.signum());
            Odd "odd" before OpSign::IntPred(1), int_of a => truth(a % 2 != 0);
            IntOfChar "int_of_char" before OpSign::CharInt, char_of c => int(i64::from(c));
            IsDigit "is_digit" before OpSign::CharPred, char_of c => truth(is_digit(c));
            IsLetter "is_letter" before OpSign::CharPred, char_of c => truth(is_letter(c));
        }
    };
}

/// The value of an operator on its operands, and its alarm. Where an operand is Nil the value is
/// Nil and there is no alarm, also where `if` does not choose that operand.
pub fn eval(op: Op, args: &[Leaf]) -> (Leaf, Alarm)
    requires { Takes op args.now }
    ensures value { result.0 ≡ value_of op args.now }
    ensures alarm { result.1 ≡ (if alarm_of op args.now then Alarm.Division else Alarm.None) }
    ensures nil { Contains args.now Leaf.Nil → (result.0 ≡ Leaf.Nil) × (result.1 ≡ Alarm.None) }
    ensures shape { (shape : Shape) → TakesAt op shape args.now → Fits result.0 (result_shape (signature_of op) shape) }
{
    evaluate(op, args)
}

/// The total form of `eval`: on operands that the operator does not take, the value is Nil. An
/// alarm comes only of a division, or a remainder, of two integers of which the second is zero.
pub fn evaluate(op: Op, args: &[Leaf]) -> (Leaf, Alarm)
    ensures value { result.0 ≡ value_of op args.now }
    ensures alarm { result.1 ≡ (if alarm_of op args.now then Alarm.Division else Alarm.None) }
{
    operators!(values, op, args)
}

/// The symbol of an operator, as step code has it.
pub fn symbol(op: Op) -> &'static str
    ensures { result.now ≡ symbol_of op }
{
    operators!(symbols, op)
}

/// What an operator takes and gives.
pub fn sign_of(op: Op) -> OpSign
    ensures { result ≡ signature_of op }
{
    operators!(signs, op)
}

/// Whether an operator is a word that is written before its operands.
pub fn prefix(op: Op) -> bool
    ensures { result ≡ is_prefix op }
{
    operators!(prefixes, op)
}

/// The operator of a symbol, None where no operator has it.
pub fn find_op(symbol: &str) -> Option<Op>
    ensures found { IfSome result (λ op. symbol_of op ≡ symbol.now) }
    ensures none { IfNone result ((op : Op) → symbol_of op ≢ symbol.now) }
    ensures every { (op : Op) → symbol_of op ≡ symbol.now → result ≡ Some op }
{
    all_operators().find(symbol)
}

fn all_operators() -> OpTable<OPERATORS>
    ensures { entries result.rows ≡ all_entries }
{
    OpTable {
        rows: operators!(rows),
    }
}
