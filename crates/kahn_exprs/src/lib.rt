//! The rows of expressions, and where they divide by zero, as the network of streams defines them:
//! by what is around a body, and by the table of its rows as far as it is known.
#![tactic(auto)]

mod alarms;
mod body;
mod calls;
mod context;
mod expressions;
mod instance;
mod memory;
mod rows;
mod rules;
mod streams;
mod table;

pub use alarms::{Alarms, alarm_row, yes_row};
pub use body::{
    Body, active, again, again_too, cell_in, in_arms, on, param_cell, read, stream_cell, truth_in,
};
pub use calls::Calls;
pub use context::{Argument, Clocks, Context, copy_argument, copy_cells};
pub use expressions::row;
pub use memory::{
    Pace, last, last_bound, mode_here, previous, restarts, signal_here, variable_here,
};
pub use rows::absent_row;
pub use table::{Rows, known};
