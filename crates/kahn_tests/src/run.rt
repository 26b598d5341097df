//! A program from its text to the rows of a node.

use crate::annotate::annotated_file;
use crate::known::Known;
use crate::rows::{row, write_line};
use crate::scope::definition_number;
use kahn_model::Cell;
use kahn_plain::{Answer, program_network};
use ls_ast::{DefOf, File};
use ls_base::{List, NoMemory};
use ls_lexer::lex;
use ls_parser::parse;
use ls_sig::Note;
use std::alloc::Global;
use std::test::Fail;

/// The tree of a text.
fn tree(alloc: Global, text: &str) -> Result<File, Fail> {
    if text.len() > 10_000_000 {
        return Err("too long".into());
    }
    let tokens = lex(alloc, text.as_bytes()).ok().ok_or("tokens")?;
    let file = parse(alloc, &tokens).ok().ok_or("tree")?;
    Ok(file)
}

fn all_rows(alloc: Global, texts: &[&str]) -> Result<List<List<Option<Cell>>>, NoMemory> {
    let mut done = List::new(alloc);
    for text in texts {
        let row = row(alloc, text)?;
        done.push(row)?;
    }
    Ok(done)
}

fn line_count(args: &[List<Option<Cell>>]) -> u32 {
    match args {
        [first, ..] => first.len() as u32,
        [] => 0,
    }
}

/// The number of the node among the definitions of the file.
fn node_number(known: &Known, file: &File) -> Result<u32, Fail> {
    let name = file.names.find(known.node).ok_or("node")?;
    let number = definition_number(name, file.defs.as_slice()).ok_or("node")?;
    Ok(number)
}

/// What the k-th definition gives on these rows.
fn answer(alloc: Global, defs: &[DefOf<Note>], k: u32, args: &[&str]) -> Result<Answer, NoMemory> {
    let args = all_rows(alloc, args)?;
    let lines = line_count(args.as_slice());
    program_network(alloc, defs, lines, k, args)
}

/// The words of an answer, with blanks between them.
fn words(alloc: Global, answer: &Answer) -> Result<String, NoMemory> {
    let mut out = String::new(alloc);
    let mut first = true;
    for (c, alarm) in answer.row.as_slice().iter().zip(answer.alarms.as_slice()) {
        if !first {
            out.push_str(" ")?;
        }
        write_line(c, *alarm, &mut out)?;
        first = false;
    }
    Ok(out)
}

/// What a node gives on its rows, in words: a cell for each line, or `!` where it is alarmed.
pub fn run(alloc: Global, known: &Known) -> Result<String, Fail> {
    let file = tree(alloc, known.text)?;
    let number = node_number(known, &file)?;
    let defs = annotated_file(alloc, file.defs.as_slice(), &file.names, known.hints)?;
    let answer = answer(alloc, defs.as_slice(), number, known.args)?;
    let words = words(alloc, &answer)?;
    Ok(words)
}
