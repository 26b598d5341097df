//! The levels of precedence, and the operators that stand behind their left operand.

ghost use Rattle.std.specs.Prelude.{◌≡◌};
ghost use Rattle.ls_parser.specs.Levels.{rank, left, right, infix_of, level_of};

use ls_lexer::Fixed;
use ls_ops::Op;

/// The levels of precedence, the loosest first.
#[derive(Clone, Copy, Debug, PartialEq, Eq)]
pub(crate) enum Level {
    Expr,
    Init,
    Delay,
    Samp,
    Disj,
    Conj,
    Comp,
    Sum,
    Prod,
    Unary,
    App,
    Atom,
}

/// An operator that stands behind its left operand.
#[derive(Clone, Copy, Debug, PartialEq, Eq)]
pub(crate) enum Infix {
    Init,
    Fby,
    When,
    Whenot,
    Binary(Level, Op),
}

impl Level {
    pub(crate) fn rank(self) -> u8
        ensures { result ≡ rank self }
    {
        match self {
            Level::Expr => 0,
            Level::Init => 1,
            Level::Delay => 2,
            Level::Samp => 3,
            Level::Disj => 4,
            Level::Conj => 5,
            Level::Comp => 6,
            Level::Sum => 7,
            Level::Prod => 8,
            Level::Unary => 9,
            Level::App => 10,
            Level::Atom => 11,
        }
    }

    /// The level of the left operand of an operator of this level.
    pub(crate) fn left(self) -> Level
        ensures { result ≡ left self }
    {
        match self {
            Level::Init => Level::Delay,
            Level::Delay => Level::Samp,
            Level::Comp => Level::Sum,
            level => level,
        }
    }

    /// The level of the right operand of an operator of this level.
    pub(crate) fn right(self) -> Level
        ensures { result ≡ right self }
    {
        match self {
            Level::Init => Level::Expr,
            Level::Disj => Level::Conj,
            Level::Conj => Level::Comp,
            Level::Comp => Level::Sum,
            Level::Sum => Level::Prod,
            Level::Prod => Level::Unary,
            level => level,
        }
    }
}

impl Infix {
    /// The operator that a word is behind an operand.
    pub(crate) fn of(word: Fixed) -> Option<Infix>
        ensures { result ≡ infix_of word }
    {
        match word {
            Fixed::Arrow => Some(Infix::Init),
            Fixed::KwFby => Some(Infix::Fby),
            Fixed::KwWhen => Some(Infix::When),
            Fixed::KwWhenot => Some(Infix::Whenot),
            Fixed::KwOr => Some(Infix::Binary(Level::Disj, Op::Or)),
            Fixed::KwXor => Some(Infix::Binary(Level::Disj, Op::Xor)),
            Fixed::Ampersand => Some(Infix::Binary(Level::Conj, Op::And)),
            Fixed::Equal => Some(Infix::Binary(Level::Comp, Op::Equal)),
            Fixed::Differ => Some(Infix::Binary(Level::Comp, Op::Differ)),
            Fixed::Less => Some(Infix::Binary(Level::Comp, Op::Less)),
            Fixed::LessEq => Some(Infix::Binary(Level::Comp, Op::LessEq)),
            Fixed::Greater => Some(Infix::Binary(Level::Comp, Op::Greater)),
            Fixed::GreaterEq => Some(Infix::Binary(Level::Comp, Op::GreaterEq)),
            Fixed::Plus => Some(Infix::Binary(Level::Sum, Op::Add)),
            Fixed::Minus => Some(Infix::Binary(Level::Sum, Op::Sub)),
            Fixed::Star => Some(Infix::Binary(Level::Prod, Op::Mul)),
            Fixed::Slash => Some(Infix::Binary(Level::Prod, Op::Div)),
            Fixed::KwMod => Some(Infix::Binary(Level::Prod, Op::Rem)),
            _ => None,
        }
    }

    pub(crate) fn level(self) -> Level
        ensures { result ≡ level_of self }
    {
        match self {
            Infix::Init => Level::Init,
            Infix::Fby => Level::Delay,
            Infix::When | Infix::Whenot => Level::Samp,
            Infix::Binary(level, _) => level,
        }
    }
}
