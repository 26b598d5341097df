//! From the bytes of a file to its tokens.
#![tactic(auto)]

mod fault;
mod keyword;
mod longest;
mod piece;
mod reading;
mod scan;
mod symbol;
mod token;

pub use fault::LexFault;
pub use longest::longest_piece;
pub use reading::lex;
pub use token::{Fixed, Token, Tokens};
