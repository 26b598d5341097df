//! The answer to a question.

use crate::{environment, grammar, large, names, places, scope, terms, tokens, trees};
use ls_base::{List, NoMemory};
use percent_encoding::percent_decode;
use std::alloc::Global;

/// The bytes that a text of a question stands for.
fn source(alloc: Global, text: &str) -> Result<List<u8>, NoMemory> {
    let mut bytes = List::new(alloc);
    for byte in percent_decode(text.as_bytes()) {
        bytes.push(if byte == b'@' { b'\n' } else { byte })?;
    }
    Ok(bytes)
}

/// The answer to a question about the text of a file, or to one about a body, a tree or terms.
pub fn answer(alloc: Global, question: &str) -> Result<String, NoMemory> {
    let (asked, of) = match question.split_once(' ') {
        Some((asked, of)) => (asked, of),
        None => (question, ""),
    };
    match asked {
        "tokens" => tokens::listed(alloc, source(alloc, of)?.as_slice()),
        "names" => tokens::names(alloc, source(alloc, of)?.as_slice()),
        "syntax" => grammar::words(alloc, of),
        "nested" => grammar::nested(alloc, of),
        "grouped" => grammar::grouped(alloc, source(alloc, of)?.as_slice()),
        "scope" => scope::judged(alloc, source(alloc, of)?.as_slice()),
        "resolved" => names::answer(alloc, source(alloc, of)?.as_slice()),
        "after" => environment::judged(alloc, source(alloc, of)?.as_slice()),
        "large" => large::judged(alloc, of),
        "tree" => trees::answer(alloc, of),
        "place" => places::answer(alloc, of),
        "terms" => terms::answer(alloc, of),
        _ => Ok(String::from_str(alloc, "no such question")?),
    }
}
