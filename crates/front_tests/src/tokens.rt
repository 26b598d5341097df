//! Tokens and faults of sources.

use ls_base::{Name, NoMemory};
use ls_lexer::{Token, Tokens, lex};
use std::alloc::Global;

fn spelling(tokens: &Tokens, name: Name) -> &str {
    match tokens.names.spell(name) {
        Some(text) => text,
        None => "?",
    }
}

/// A token as a text: a name by its spelling, a string by its characters between bars.
fn shown(alloc: Global, tokens: &Tokens, token: &Token) -> Result<String, NoMemory> {
    Ok(match token {
        Token::Id(name) => format!(in alloc; "id {}", spelling(tokens, *name))?,
        Token::Cons(name) => format!(in alloc; "cons {}", spelling(tokens, *name))?,
        Token::Int(value) => format!(in alloc; "{value}")?,
        Token::Char(glyph) => format!(in alloc; "char {}", glyph.byte())?,
        Token::Text(text) => format!(in alloc; "text {:?}", text.bytes())?,
        Token::Prefix(op) => format!(in alloc; "prefix {op:?}")?,
        Token::Fixed(fixed) => format!(in alloc; "{fixed:?}")?,
    })
}

/// The tokens of a source, each behind its line, with `; ` between, and `none` where it has none; or
/// the fault.
pub fn listed(alloc: Global, source: &[u8]) -> Result<String, NoMemory> {
    if source.len() > 4000 {
        return Ok(String::from_str(alloc, "too long")?);
    }
    let mut text = String::new(alloc);
    let tokens = match lex(alloc, source) {
        Ok(tokens) => tokens,
        Err(fault) => return Ok(format!(in alloc; "{fault:?}")?),
    };
    if tokens.list.len() == 0 {
        text.push_str("none")?;
    }
    for (line, token) in tokens.list.as_slice() {
        if !text.is_empty() {
            text.push_str("; ")?;
        }
        let shown = shown(alloc, &tokens, token)?;
        text.push_str(format!(in alloc; "{} {shown}", line.0)?.as_str())?;
    }
    Ok(text)
}

/// The names of a source, in order.
pub fn names(alloc: Global, source: &[u8]) -> Result<String, NoMemory> {
    if source.len() > 4000 {
        return Ok(String::from_str(alloc, "too long")?);
    }
    let mut text = String::new(alloc);
    let tokens = match lex(alloc, source) {
        Ok(tokens) => tokens,
        Err(fault) => return Ok(format!(in alloc; "{fault:?}")?),
    };
    for i in 0..tokens.names.len() {
        if !text.is_empty() {
            text.push(' ')?;
        }
        text.push_str(spelling(&tokens, Name(i as u32)))?;
    }
    Ok(text)
}
