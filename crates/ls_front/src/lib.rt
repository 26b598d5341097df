//! The judgements on a file, one after the other, each over the whole file before the next.
#![tactic(auto)]

mod checked;
mod enums;
mod fault;
mod judgements;
mod trees;

pub use checked::Checked;
pub use fault::FrontFault;
pub use judgements::front;
