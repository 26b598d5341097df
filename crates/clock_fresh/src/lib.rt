//! The annotation of a typed definition with a new clock variable wherever a clock may be.
#![tactic(auto)]

mod fresh;
mod shapes;

pub use fresh::{Fresh, fresh_annotation};
pub use shapes::some_vars;
