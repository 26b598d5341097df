ghost use Rattle.std.specs.Prelude.{◌≡◌, ℕ, ◌<◌, ◌^◌, decimal, IfSome, IfOk, OnErr, Some, Ok, IsTrue, ◌↔◌};
ghost use Rattle.ls_value.specs.declared.leaf.Leaf.{Leaf};
ghost use Rattle.ls_value.specs.Spelling.{Fits, IsLeaf, code_of, constructor_code};

use crate::{Leaf, LeafBuf, Shape, read_char, read_int, read_text};

/// The bytes are not the code spelling of a leaf that fits the shape.
#[derive(Clone, Copy, Debug, PartialEq, Eq)]
pub struct BadLeaf;

/// Reads the one spelling that a leaf has in step code; `nil` fits every shape.
///
/// `BadLeaf` where no leaf that fits the shape is spelled so: leading zeros, `-0` and escapes that
/// are not needed are no spellings.
pub fn read_leaf(bytes: &[u8], shape: Shape) -> Result<Leaf, BadLeaf>
    ensures found { IfOk result (λ leaf. Fits leaf shape × (bytes.now ≡ code_of leaf)) }
    ensures back { (leaf : Leaf) → Fits leaf shape → IsLeaf leaf → bytes.now ≡ code_of leaf → result ≡ Ok leaf }
    ensures none { OnErr result ((leaf : Leaf) → Fits leaf shape → IsLeaf leaf → bytes.now ≡ code_of leaf → ⊥) }
{
    let Some(leaf) = nearest_leaf(bytes, shape) else {
        return Err(BadLeaf);
    };
    if is_code_of(bytes, &leaf) {
        Ok(leaf)
    } else {
        Err(BadLeaf)
    }
}

fn is_code_of(bytes: &[u8], leaf: &Leaf) -> bool
    ensures { IsTrue result ↔ (bytes.now ≡ code_of leaf.now) }
{
    let mut code = LeafBuf::new();
    code.write(leaf);
    code.bytes() == bytes
}

// The only leaf of the shape that the bytes can be the spelling of, if there is one.
fn nearest_leaf(bytes: &[u8], shape: Shape) -> Option<Leaf>
    ensures fits { IfSome result (λ leaf. Fits leaf shape) }
    ensures only { (leaf : Leaf) → Fits leaf shape → IsLeaf leaf → bytes.now ≡ code_of leaf → result ≡ Some leaf }
{
    if bytes == b"nil".as_slice() {
        return Some(Leaf::Nil);
    }
    match shape {
        Shape::Int => Some(Leaf::Int(read_int(bytes)?)),
        Shape::Bool => Some(Leaf::Bool(bytes == b"true".as_slice())),
        Shape::Char => Some(Leaf::Char(read_char(bytes)?)),
        Shape::Text => Some(Leaf::Text(read_text(bytes)?)),
        Shape::Enum(enumeration) => Some(Leaf::Enum(enumeration, read_place(enumeration, bytes)?)),
        Shape::Unit => Some(Leaf::Unit),
    }
}

// The number after `#T.`, of which only the length is looked at.
fn read_place(enumeration: u32, bytes: &[u8]) -> Option<u32>
    ensures { (place : ℕ) → place < 2 ^ 32 → bytes.now ≡ constructor_code enumeration place → result ≡ Some place }
{
    let start = itoa::Buffer::new().format(enumeration).len() + 2;
    if bytes.len() < start {
        return None;
    }
    read_number(&bytes[start..])
}

fn read_number(bytes: &[u8]) -> Option<u32>
    ensures { (n : ℕ) → n < 2 ^ 32 → bytes.now ≡ decimal n → result ≡ Some n }
{
    match std::str::from_utf8(bytes) {
        Ok(text) => text.parse::<u32>().ok(),
        Err(_) => None,
    }
}
