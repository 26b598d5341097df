//! The leaves of values: integers, truth values, characters, strings, constructors and unit, with
//! their one code spelling.
#![tactic(auto)]

mod code;
mod glyph;
mod leaf;
mod leaf_buf;
mod read;
#[cfg(test)]
mod tests;
mod text;

pub use code::{BadLeaf, read_leaf};
pub use glyph::Glyph;
pub use leaf::{Leaf, Shape};
pub use leaf_buf::{LeafBuf, write_leaf};
pub use read::{read_char, read_int, read_text};
pub use text::Text;
