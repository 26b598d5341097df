//! What stands where in a definition: its variables, equations, blocks and expressions, with what
//! is around them, and what is looked up there.
#![tactic(auto)]

mod around;
mod bind;
mod blocks;
mod definition;
pub mod laws;
mod places;
mod signals;
mod vars;
mod walk;

pub use definition::{Definition, Key};
pub use places::{Frame, Named, Places, Right, Site, Start, Transition, Variable, Whole};
pub use signals::{CasePlaces, NoteSignals, Signals};
pub use vars::Variables;
pub use walk::{find, variables};
