//! What the lines of a node are: their form by its signature, what the cells of a line give to its
//! parameters, and the cells of an output line.
#![tactic(auto)]

mod arguments;
mod fields;
pub mod laws;
mod results;
mod rows;
mod runnable;
mod shapes;
#[cfg(test)]
mod tests;

pub use fields::{constructors, form};
pub use results::result_cells;
pub use rows::columns;
pub use runnable::{NodeFault, node_fault};
pub use shapes::leaves;
