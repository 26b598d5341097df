//! The network of streams of a program, worked out as the definition says: every cell unknown at
//! first, then each row anew from what stands, until none has a further cell.
#![tactic(auto)]

mod alarmed;
mod blocks;
mod depths;
mod equations;
mod node;
mod program;
mod turns;

pub use alarmed::alarms;
pub use depths::meaning;
pub use node::{Answer, network};
pub use program::{definitions, program_network};
pub use turns::{is_numbered, table};
