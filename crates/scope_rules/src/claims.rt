//! What an expression asks of the scope.

use ls_ast::{Case, Mark};
use ls_base::List;
use ls_sig::Binder;

/// How a name or an expression stands.
#[derive(Clone, Copy, Debug, PartialEq, Eq)]
pub enum Stand {
    /// As the whole body.
    Whole,
    /// As the whole right side of `x = e`.
    Right,
    /// At a position of a mark; at Data it is a stream.
    At(Mark),
    /// As an argument of a parameter that is applied.
    Loose,
    /// After `last`.
    Before,
    /// After `?` or `present`.
    Asked,
    /// As what is applied, `f x` by Comb and `run f x` by Seq.
    Applied(Mark),
}

/// One thing that an expression asks of the scope.
#[derive(Debug, Drop)]
pub enum Claim {
    /// A name may stand so, where it has this binder.
    Named(Binder, u32, Stand),
    /// A constructor is there.
    Constructor(u32),
    /// The branches of a `merge` are those of one enumeration.
    Branches(List<Case>),
    /// An argument is not of the kind of its position.
    Stray,
    /// A call that answers a signal stands inside.
    Answered,
    /// A form that is not combinatorial.
    Timed,
}

/// What is asked at one place, which is the arms around it.
#[derive(Debug, Drop)]
pub struct Asked {
    pub claims: List<Claim>,
    pub place: List<(u32, u32)>,
}

/// A definition, as later ones see it.
#[derive(Debug, Drop)]
pub struct Earlier {
    pub title: u32,
    pub node: bool,
    /// The mark of each parameter.
    pub marks: List<Mark>,
    /// Whether its result is a signal.
    pub answers: bool,
}

/// What a name that is applied means.
pub enum Applied<'a> {
    Def(&'a Earlier),
    Param,
    Other,
}
