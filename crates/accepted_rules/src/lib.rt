//! What an accepted file is: a file of which all judgements hold, with what they give.
#![tactic(auto)]

mod accepted;

pub use accepted::Accepted;
