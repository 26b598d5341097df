//! The terms of types and of clocks.
#![tactic(auto)]

mod clocks;
mod types;

pub use clocks::ClockTerm;
pub use types::{Kind, TypeTerm};
