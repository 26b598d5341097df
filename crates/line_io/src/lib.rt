//! Lines of input and output: a buffer that gives the lines of a source, and the fields of a line
//! read and written by the form of a node's inputs and outputs.
#![tactic(auto)]

mod buffer;
mod cells;
mod form;
mod inputs;
mod read;
mod row;
#[cfg(test)]
mod tests;
mod words;

pub use buffer::{LineBuf, Next};
pub use form::{Cell, Field, InputForm};
pub use inputs::{BadField, Inputs, read_inputs};
pub use row::{OutRow, RowBuffer, write_row};
