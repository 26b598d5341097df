//! The syntax trees of the language, generic in the note that each expression carries.
#![tactic(auto)]

mod copy;
mod depth;
mod tree;

pub use depth::height;
pub use ls_base::NoteCopy;
pub use tree::{
    Arm, BodyOf, Case, Def, DefOf, Equation, Expr, File, FileOf, Form, Guard, Handler, Mark, Pat,
    Plain, State, Test,
};
