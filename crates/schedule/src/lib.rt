//! The equations of a core in an order in which a step can evaluate them.
#![tactic(auto)]

mod by_rank;

pub use by_rank::order;
