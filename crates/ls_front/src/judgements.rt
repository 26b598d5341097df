//! The front end: from bytes to trees with types and clocks.

ghost use Rattle.std.specs.Prelude.{◌≡◌, ◌<◌, length, IfOk, IfErr};
ghost use Rattle.ls_front.specs.Front as spec;

use crate::checked::Checked;
use crate::fault::FrontFault;
use crate::trees::judge_names;
use ls_ast::File;
use ls_lexer::{LexFault, Tokens, lex};
use ls_parser::{SyntaxFault, parse};
use ls_scope::{ScopeFault, resolve};
use std::alloc::Global;
use type_premises::laws;

/// Judges a file by its text: tokens, grammar, scope of names, types, clocks and initialisation,
/// each over the whole file before the next. The answer is what they give, or the first fault of
/// the first judgement that the file fails.
pub fn front(alloc: Global, bytes: &[u8]) -> Result<Checked, FrontFault>
    requires short { length bytes.now < 4294967295 }
    ensures accepted { IfOk result (λ r. spec.IsAccepted bytes.now r) }
    ensures fault { IfErr result (λ f. spec.IsFault bytes.now f) }
    ensures inside { IfErr result (λ f. spec.IsInside f) }
{
    match lex(alloc, bytes) {
        Ok(tokens) => judge_tokens(alloc, &tokens),
        Err(LexFault::NoMemory) => Err(FrontFault::NoMemory),
        Err(fault) => Err(FrontFault::Lex(fault)),
    }
}

fn judge_tokens(alloc: Global, tokens: &Tokens) -> Result<Checked, FrontFault>
    ensures accepted { IfOk result (λ r. spec.AreAccepted tokens.now r) }
    ensures fault { IfErr result (λ f. spec.TokensFail tokens.now f) }
    ensures inside { IfErr result (λ f. spec.IsInside f) }
{
    match parse(alloc, tokens) {
        Ok(file) => judge_file(alloc, &file),
        Err(SyntaxFault::NoMemory) => Err(FrontFault::NoMemory),
        Err(fault) => Err(FrontFault::Syntax(fault)),
    }
}

fn judge_file(alloc: Global, file: &File) -> Result<Checked, FrontFault>
    ensures accepted { IfOk result (λ r. spec.FileAccepted file.now r) }
    ensures fault { IfErr result (λ f. spec.FileFails file.now f) }
    ensures inside { IfErr result (λ f. spec.IsInside f) }
{
    match resolve(alloc, file) {
        Ok(resolved) => {
            laws::functions_come_from_scope();
            judge_names(alloc, &resolved)
        }
        Err(ScopeFault::NoMemory) => Err(FrontFault::NoMemory),
        Err(fault) => Err(FrontFault::Scope(fault)),
    }
}
