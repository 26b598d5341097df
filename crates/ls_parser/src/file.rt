//! Whole files.

ghost use Rattle.std.specs.Prelude.{◌≡◌, List, IfOk};
ghost use Rattle.ls_parser.specs.Answers.{IfSyntax, IsAnswer, IsSyntaxAt};
ghost use Rattle.ls_ast.specs.declared.tree.DefOf.{DefOf};
ghost use Rattle.ls_ast.specs.declared.tree.Plain.{Plain};
ghost use Rattle.ls_base.specs.declared.Line.{Line};
ghost use Rattle.ls_lexer.specs.declared.token.Token.{Token};
ghost use Rattle.ls_parser.specs.Grammar.{IsFile, StopsAt};

use crate::{Parser, SyntaxFault};
use ls_ast::File;
use ls_lexer::Tokens;
use std::alloc::Global;

/// The tree of a file, with the names of its tokens.
pub fn parse(alloc: Global, tokens: &Tokens) -> Result<File, SyntaxFault>
    ensures file { IfOk result (λ file. IsFile file.defs tokens.now.list) }
    ensures names { IfOk result (λ file. file.names ≡ tokens.now.names) }
    ensures fault { IfSyntax result (λ line. StopsAt tokens.now.list line) }
    ensures only { (defs : List (DefOf Plain)) → IsFile defs tokens.now.list → IsAnswer (λ file. file.defs) result defs }
    ensures stops { (line : Line) → StopsAt tokens.now.list line → IsSyntaxAt result line }
{
    let parser = Parser {
        alloc,
        tokens: tokens.list.as_slice(),
    };
    let defs = match parser.defs() {
        Ok(defs) => defs,
        Err(fault) => return Err(fault),
    };
    let names = tokens.names.copy(alloc)?;
    Ok(File { defs, names })
}

/// The tokens are the spelling of at most one file.
pub fn one_tree()
    ensures { (ts : List (Line × Token)) → (a b : List (DefOf Plain)) → IsFile a ts → IsFile b ts → a ≡ b }
{}

/// The tokens stop in at most one line, and in none where they are the spelling of a file.
pub fn one_stop()
    ensures line { (ts : List (Line × Token)) → (a b : Line) → StopsAt ts a → StopsAt ts b → a ≡ b }
    ensures no_file { (ts : List (Line × Token)) → (defs : List (DefOf Plain)) → (line : Line) → IsFile defs ts → StopsAt ts line → ⊥ }
{}
