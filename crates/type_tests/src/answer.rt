//! The types of a file, as text.

use ls_ast::{DefOf, File};
use ls_base::{Line, List, MemSink, Name, NoMemory};
use ls_lexer::lex;
use ls_parser::parse;
use ls_scope::resolve;
use ls_sig::{Env, Sig, Typed};
use std::alloc::Global;
use std::io;
use type_infer::{TypeFault, infer_types};
use type_schemes::{print_type, type_signatures};

/// What a text comes to.
pub enum Verdict {
    Typed(Typed),
    /// The line of the first definition that has no types.
    IllTyped(u32),
    /// No tokens, no tree, or a fault of scope.
    Other,
}

fn tree(alloc: Global, text: &str) -> Option<File> {
    if text.len() > 1_000_000 {
        return None;
    }
    match lex(alloc, text.as_bytes()) {
        Ok(tokens) => match parse(alloc, &tokens) {
            Ok(file) => Some(file),
            Err(_) => None,
        },
        Err(_) => None,
    }
}

/// The types of a text.
pub fn judge(alloc: Global, text: &str) -> Verdict {
    let Some(file) = tree(alloc, text) else {
        return Verdict::Other;
    };
    let Ok(resolved) = resolve(alloc, &file) else {
        return Verdict::Other;
    };
    match infer_types(alloc, &resolved) {
        Ok(typed) => Verdict::Typed(typed),
        Err(TypeFault::IllTyped(Line(line))) => Verdict::IllTyped(line),
        Err(TypeFault::NoMemory) => Verdict::Other,
    }
}

/// The names of the enumerations of a file.
fn enumerations(alloc: Global, file: &Typed) -> Result<List<Name>, NoMemory> {
    let mut names = List::new(alloc);
    for def in file.defs.as_slice() {
        if let DefOf::Cases { name, .. } = def {
            names.push(*name)?;
        }
    }
    Ok(names)
}

fn signatures(alloc: Global, file: &Typed) -> Result<List<Sig>, NoMemory> {
    let env = Env::empty(alloc)?;
    type_signatures(alloc, &env, file)
}

fn add_line(
    alloc: Global,
    sig: &Sig,
    enums: &List<Name>,
    file: &Typed,
    text: &mut String,
) -> io::Result<()> {
    let mut out = match MemSink::new(alloc, 10_000, Vec::new(alloc)) {
        Ok(out) => out,
        Err(_) => return Err(io::Error::from(io::ErrorKind::OutOfMemory)),
    };
    if print_type(sig, enums.as_slice(), &file.names, &mut out).is_err() {
        return Err(io::Error::from(io::ErrorKind::WriteZero));
    }
    let line = String::from_utf8_lossy(alloc, out.written())?;
    text.push_str(line.as_str())?;
    text.push('\n')?;
    Ok(())
}

/// The lines of the types of a file.
fn lines(alloc: Global, file: &Typed) -> io::Result<String> {
    let mut text = String::new(alloc);
    let (Ok(enums), Ok(sigs)) = (enumerations(alloc, file), signatures(alloc, file)) else {
        return Err(io::Error::from(io::ErrorKind::OutOfMemory));
    };
    for sig in sigs.as_slice() {
        add_line(alloc, sig, &enums, file, &mut text)?;
    }
    Ok(text)
}

/// The lines of the types of a text, or where it is refused.
pub fn answer(alloc: Global, text: &str) -> io::Result<String> {
    match judge(alloc, text) {
        Verdict::Typed(file) => lines(alloc, &file),
        Verdict::IllTyped(line) => Ok(format!(in alloc; "refused: type at line {line}\n")?),
        Verdict::Other => Ok(String::from_str(alloc, "refused\n")?),
    }
}
