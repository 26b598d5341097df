//! Values and cells of the network of streams, each as the network defines it, and a definition
//! with what is looked up in it worked out once.
#![tactic(auto)]

pub mod cells;
pub mod clocks;
mod constructors;
mod groups;
mod homes;
mod paths;
mod prepared;
pub mod search;
mod signals;
pub mod values;

pub use constructors::Constructors;
pub use prepared::Prepared;
