//! A node of a file is run.
ghost use Rattle.std.specs.Prelude.{◌≡◌, ◌≤◌, length, true};
ghost use Rattle.line_io.specs.Fields.{is_named};
ghost use Rattle.sum_model.specs.Running.{node_of};
ghost use Rattle.lsc_cli.specs.Call.{ComesFrom, IsInner};
ghost use Rattle.lsc_cli.specs.Run.{Runs};
ghost use Rattle.lsc_cli.specs.Start.{IsNodeStart, IsTokensStart, start_node};
ghost use Rattle.lsc_cli.specs.Status.{is_about_file};
ghost use Rattle.lsc_cli.specs.SumForm.{file_of};

use crate::form::sum_of;
use crate::refusal::{refuse, refuse_syntax, refuse_tokens};
use crate::run::run_machine;
use crate::status::Status;
use ls_ast::File;
use ls_base::{Name, Names, Sink, Source};
use ls_lexer::{LexFault, Tokens, lex};
use ls_parser::{SyntaxFault, parse};
use std::alloc::Global;
use sum_model::{Machine, RunningSum};

/// Runs a node of a file of this text, for at most `most` lines.
pub(crate) fn run_text<S: Source, K: Sink>(
    alloc: Global,
    text: &[u8],
    node: &str,
    most: u32,
    input: &mut S,
    out: &mut K,
) -> Status
    requires { length text.now ≤ 1048576 }
    ensures judged { is_about_file result ≡ true → ComesFrom (IsNodeStart node.now text.now) most (S.left input.old) (S.left input.new) result (K.written out.old) (K.written out.new) }
    ensures inner { IsInner result (S.count input.old) (S.count input.new) (K.count out.old) (K.count out.new) ((input.new ≡ input.old) × (out.new ≡ out.old)) }
{
    match lex(alloc, text) {
        Ok(tokens) => run_tokens(alloc, &tokens, node, most, input, out),
        Err(LexFault::NoMemory) => Status::NoMemory,
        Err(fault) => refuse_tokens(fault, out),
    }
}

/// Runs a node of a file of these tokens.
fn run_tokens<S: Source, K: Sink>(
    alloc: Global,
    tokens: &Tokens,
    node: &str,
    most: u32,
    input: &mut S,
    out: &mut K,
) -> Status
    ensures judged { is_about_file result ≡ true → ComesFrom (IsTokensStart node.now tokens.now) most (S.left input.old) (S.left input.new) result (K.written out.old) (K.written out.new) }
    ensures inner { IsInner result (S.count input.old) (S.count input.new) (K.count out.old) (K.count out.new) ((input.new ≡ input.old) × (out.new ≡ out.old)) }
{
    match parse(alloc, tokens) {
        Ok(file) => run_file(alloc, &file, node, most, input, out),
        Err(SyntaxFault::NoMemory) => Status::NoMemory,
        Err(fault) => refuse_syntax(fault, out),
    }
}

/// Runs a node of a file.
fn run_file<S: Source, K: Sink>(
    alloc: Global,
    file: &File,
    node: &str,
    most: u32,
    input: &mut S,
    out: &mut K,
) -> Status
    ensures judged { is_about_file result ≡ true → ComesFrom (λ start. start ≡ start_node node.now file.now.names (file_of file.now.defs)) most (S.left input.old) (S.left input.new) result (K.written out.old) (K.written out.new) }
    ensures inner { IsInner result (S.count input.old) (S.count input.new) (K.count out.old) (K.count out.new) ((input.new ≡ input.old) × (out.new ≡ out.old)) }
{
    match sum_of(file.defs.as_slice()) {
        None => refuse(b"refused: form not built\n", out),
        Some(sum) => {
            if has_spelling(&file.names, sum.name, node) {
                run_body(alloc, sum.body, most, input, out)
            } else {
                refuse(b"refused: no such node\n", out)
            }
        }
    }
}

/// Whether a name is spelled as a text.
fn has_spelling(names: &Names, name: Name, text: &str) -> bool
    ensures { result ≡ is_named names.now text.now name }
{
    match names.spell(name) {
        Some(spelling) => spelling.as_bytes() == text.as_bytes(),
        None => false,
    }
}

/// Runs a running sum.
fn run_body<S: Source, K: Sink>(
    alloc: Global,
    body: RunningSum,
    most: u32,
    input: &mut S,
    out: &mut K,
) -> Status
    ensures runs { is_about_file result ≡ true → Runs (node_of body) most (S.left input.old) (S.left input.new) result (K.written out.old) (K.written out.new) }
    ensures inner { IsInner result (S.count input.old) (S.count input.new) (K.count out.old) (K.count out.new) ((input.new ≡ input.old) × (out.new ≡ out.old)) }
{
    match Machine::new(alloc, body) {
        Ok(mut machine) => run_machine(alloc, &mut machine, most, input, out),
        Err(_) => Status::NoMemory,
    }
}
