//! The clocks of blocks and the signals that are tested, worked out once for a definition.
#![tactic(auto)]

mod blocks;
mod clocks;
mod signals;
mod tables;

pub use clocks::bare;
pub use tables::BlockTables;
