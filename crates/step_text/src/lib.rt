//! The text of step code: it is read into valid code, or refused at its first bad line.
#![tactic(auto)]

mod entry;
mod fault;
mod forms;
mod place;
mod read;
mod reading;
mod word;
mod words;

pub use fault::CodeFault;
pub use read::read_code;
