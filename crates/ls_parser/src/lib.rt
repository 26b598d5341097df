//! The parser: from the tokens of a file to its tree.
#![tactic(auto)]

mod cursor;
mod definitions;
mod equations;
mod expressions;
mod file;
mod level;
mod patterns;

pub(crate) use cursor::{Parser, Read, Stop, taller};
pub use definitions::SyntaxFault;
pub use file::{one_stop, one_tree, parse};
pub(crate) use level::{Infix, Level};
