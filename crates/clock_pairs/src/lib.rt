//! The pairs of clocks that have to be equal in a definition.
#![tactic(auto)]

mod arms;
mod calls;
mod definition;
mod equations;
mod expressions;
mod index;
mod scene;
mod terms;

pub use definition::pairs_of;
pub use index::Index;
pub use scene::Scene;
