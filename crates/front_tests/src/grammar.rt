//! Which texts are files, where the others stop, and how operators are grouped.

use ls_ast::{DefOf, Expr, File, Form, Plain};
use ls_base::{Line, NoMemory};
use ls_lexer::lex;
use ls_ops::Op;
use ls_parser::{SyntaxFault, parse};
use std::alloc::Global;

/// What a source is before its names are resolved.
#[derive(Drop)]
pub enum Parsed {
    File(File),
    /// The line where the text stops being a file.
    Stopped(u32),
    /// No tokens, or a text that is too long.
    Other,
}

/// The tree of a source.
pub fn tree(alloc: Global, source: &[u8]) -> Result<Parsed, NoMemory> {
    if source.len() > 10_000_000 {
        return Ok(Parsed::Other);
    }
    let Ok(tokens) = lex(alloc, source) else {
        return Ok(Parsed::Other);
    };
    match parse(alloc, &tokens) {
        Ok(file) => Ok(Parsed::File(file)),
        Err(SyntaxFault::Syntax(Line(line))) => Ok(Parsed::Stopped(line)),
        Err(SyntaxFault::NoMemory) => Err(NoMemory),
    }
}

/// Whether a source is a file, or the line of the fault.
fn judged(alloc: Global, source: &[u8]) -> Result<String, NoMemory> {
    match tree(alloc, source)? {
        Parsed::File(_) => Ok(String::from_str(alloc, "a file")?),
        Parsed::Stopped(line) => Ok(format!(in alloc; "stops at line {line}")?),
        Parsed::Other => Ok(String::from_str(alloc, "no tokens")?),
    }
}

/// The answer for the words between blanks, each in a line of its own.
pub fn words(alloc: Global, text: &str) -> Result<String, NoMemory> {
    let mut lines = String::new(alloc);
    for word in text.split_whitespace() {
        lines.push_str(word)?;
        lines.push('\n')?;
    }
    judged(alloc, lines.as_bytes())
}

/// `let f x = front^count x back^count`
fn repeated(alloc: Global, front: &str, back: &str, count: u32) -> Result<String, NoMemory> {
    let mut text = String::from_str(alloc, "let f x = ")?;
    for _ in 0..count {
        text.push_str(front)?;
    }
    text.push('x')?;
    for _ in 0..count {
        text.push_str(back)?;
    }
    Ok(text)
}

/// The answer for such a text, which is told as `COUNT FRONT|BACK`.
pub fn nested(alloc: Global, told: &str) -> Result<String, NoMemory> {
    let Some((count, around)) = told.split_once(' ') else {
        return Ok(String::from_str(alloc, "no count")?);
    };
    let Some((front, back)) = around.split_once('|') else {
        return Ok(String::from_str(alloc, "no bar")?);
    };
    let Ok(count) = count.parse::<u32>() else {
        return Ok(String::from_str(alloc, "no count")?);
    };
    let text = repeated(alloc, front, back, count)?;
    judged(alloc, text.as_bytes())
}

/// The operator of an expression, and its first two operands.
fn operation(tree: &Expr<Plain>) -> Option<(Op, &Expr<Plain>, &Expr<Plain>)> {
    match tree.form.get() {
        Form::Op(op, args) => Some((*op, args.get(0)?, args.get(1)?)),
        _ => None,
    }
}

/// The operator of an expression, then those of its first two operands.
fn operators(tree: &Expr<Plain>) -> Option<(Op, Op, Op)> {
    let (op, left, right) = operation(tree)?;
    Some((op, operation(left)?.0, operation(right)?.0))
}

/// The operators of the result of a file's first definition.
pub fn grouped(alloc: Global, source: &[u8]) -> Result<String, NoMemory> {
    let Parsed::File(file) = tree(alloc, source)? else {
        return Ok(String::from_str(alloc, "no file")?);
    };
    let Some(DefOf::Let { body, .. }) = file.defs.get(0) else {
        return Ok(String::from_str(alloc, "no definition")?);
    };
    match operators(&body.result) {
        Some((op, left, right)) => Ok(format!(in alloc; "{left:?} {op:?} {right:?}")?),
        None => Ok(String::from_str(alloc, "no operators")?),
    }
}
