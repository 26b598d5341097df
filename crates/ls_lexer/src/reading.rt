//! The tokens of a file.

ghost use Rattle.std.specs.Prelude.{◌≡◌, ◌≢◌, ◌≤◌, ◌<◌, ◌+◌, ◌^◌, List, ℕ, [], length, take, IfOk, IfErr, OnOk, MatchResult, encode_utf8_all};
ghost use Rattle.std.specs.String.{string_bytes};
ghost use Rattle.std.specs.Str.{IsUtf8, IsValidUpTo, chars};
ghost use Rattle.std.specs.Str.Parse.{IsNumeral};
ghost use Rattle.ls_lexer.specs.Lexing as spec;
ghost use Rattle.ls_lexer.specs.declared.token.Tokens.{Tokens};
ghost use Rattle.ls_lexer.specs.declared.fault.LexFault.{LexFault};
ghost use Rattle.ls_lexer.specs.Characters as characters;

use crate::keyword::{Keyword, find_keyword};
use crate::piece::{Kind, piece_at};
use crate::scan::{is_capital, newlines};
use crate::{LexFault, Token, Tokens};
use ls_base::{Line, List, Names, NoMemory};
use ls_value::{read_char, read_int, read_text};
use std::alloc::{AllocError, Global};

/// The tokens of a file, or its first fault. A file of 4,294,967,294 bytes is the longest, so
/// that each line has a number.
pub fn lex(alloc: Global, bytes: &[u8]) -> Result<Tokens, LexFault>
    requires short { length bytes.now < 4294967295 }
    ensures tokens { IfOk result (λ tokens. spec.Lexes bytes.now tokens) }
    ensures fault { IfErr result (λ fault. fault ≢ LexFault.NoMemory → spec.IsLexFault bytes.now fault) }
    ensures names { IfOk result (λ tokens. spec.HasNames tokens) }
    ensures no_other_tokens { (tokens : Tokens) → spec.Lexes bytes.now tokens → MatchResult result (λ found. found ≡ tokens) (λ fault. fault ≡ LexFault.NoMemory) }
    ensures no_other_fault { (fault : LexFault) → spec.IsLexFault bytes.now fault → MatchResult result (λ tokens. ⊥) (λ found. found ≢ LexFault.NoMemory → found ≡ fault) }
{
    read_file(alloc, bytes)
}

fn read_file(alloc: Global, bytes: &[u8]) -> Result<Tokens, LexFault>
    requires short { length bytes.now < 4294967295 }
    ensures tokens { IfOk result (λ tokens. spec.Lexes bytes.now tokens) }
    ensures fault { IfErr result (λ fault. fault ≢ LexFault.NoMemory → spec.IsLexFault bytes.now fault) }
{
    let text = match std::str::from_utf8(bytes) {
        Ok(text) => text,
        Err(error) => return Err(LexFault::NotUtf8(line_behind(&bytes[..error.valid_up_to()]))),
    };
    let characters = characters_of(alloc, text)?;
    read(alloc, characters.as_slice())
}

fn characters_of(alloc: Global, text: &str) -> Result<Vec<char>, AllocError>
    ensures value { IfOk result (λ characters. characters.items ≡ chars text.now) }
{
    text.chars().collect(alloc)
}

// The line that follows some bytes.
fn line_behind(bytes: &[u8]) -> Line
    requires { length bytes.now < 4294967295 }
    ensures { result.0 ≡ 1 + characters.newlines bytes.now }
{
    Line(1 + bytes.iter().filter(|byte| **byte == b'\n').count() as u32)
}

fn read(alloc: Global, text: &[char]) -> Result<Tokens, LexFault>
    requires { length text.now < 4294967295 }
    ensures tokens { IfOk result (λ tokens. spec.HasTokens text.now tokens) }
    ensures fault { IfErr result (λ fault. fault ≢ LexFault.NoMemory → spec.HasFault text.now fault) }
{
    let mut tokens = no_tokens(alloc)?;
    let mut line = Line(1);
    let mut rest = text;
    while !rest.is_empty() {
        let len = read_piece(alloc, line, rest, &mut tokens)?;
        let (spelling, left) = rest.split_at(len);
        line = Line(line.0 + newlines(spelling) as u32);
        rest = left;
    }
    Ok(tokens)
}

fn no_tokens(alloc: Global) -> Result<Tokens, NoMemory>
    ensures { IfOk result (λ tokens. tokens ≡ (spec.start []).tokens) }
{
    let mut names = Names::new(alloc);
    names.add("false")?;
    names.add("true")?;
    Ok(Tokens {
        list: List::new(alloc),
        names,
    })
}

// Reads the piece at the front of a text, and gives its length.
fn read_piece(
    alloc: Global,
    line: Line,
    text: &[char],
    tokens: &mut Tokens,
) -> Result<usize, LexFault>
    requires { length text.now < 2 ^ 63 }
    ensures piece { IfOk result (λ len. spec.ReadsPiece line text.now len tokens.old tokens.new) }
    ensures within { IfOk result (λ len. len ≤ length text.now) }
    ensures some { IfOk result (λ len. 0 < len) }
    ensures fault { IfErr result (λ fault. fault ≢ LexFault.NoMemory → spec.FaultsHere line text.now fault) }
{
    let piece = piece_at(line, text)?;
    add_piece(alloc, piece.kind, line, &text[..piece.len], tokens)?;
    Ok(piece.len)
}

fn add_piece(
    alloc: Global,
    kind: Kind,
    line: Line,
    spelling: &[char],
    tokens: &mut Tokens,
) -> Result<(), LexFault>
    requires digits { kind ≡ Kind.Number → IsNumeral 10 spelling.now }
    requires characters { kind ≡ Kind.Text → spec.HasCharacters spelling.now }
    ensures piece { OnOk result (spec.AddsPiece kind line spelling.now tokens.old tokens.new) }
    ensures fault { IfErr result (λ fault. fault ≢ LexFault.NoMemory → spec.IsNoToken kind line spelling.now fault) }
{
    match kind {
        Kind::Blank | Kind::Comment => Ok(()),
        Kind::Word => add_word(alloc, line, spelling, tokens),
        Kind::Number => add_number(alloc, line, spelling, tokens),
        Kind::Char => add_char(alloc, line, spelling, tokens),
        Kind::Text => add_text(alloc, line, spelling, tokens),
        Kind::Symbol(symbol) => add(line, Token::Fixed(symbol), tokens),
    }
}

fn add(line: Line, token: Token, tokens: &mut Tokens) -> Result<(), LexFault>
    ensures token { OnOk result (spec.Adds line token tokens.old tokens.new) }
    ensures fault { IfErr result (λ fault. fault ≡ LexFault.NoMemory) }
{
    tokens.list.push((line, token))?;
    Ok(())
}

fn add_word(
    alloc: Global,
    line: Line,
    spelling: &[char],
    tokens: &mut Tokens,
) -> Result<(), LexFault>
    ensures word { OnOk result (spec.AddsPiece Kind.Word line spelling.now tokens.old tokens.new) }
    ensures fault { IfErr result (λ fault. fault ≡ LexFault.NoMemory) }
{
    let word = text_of(alloc, spelling)?;
    match find_keyword(word.as_str()) {
        Some(Keyword::Fixed(fixed)) => add(line, Token::Fixed(fixed), tokens),
        Some(Keyword::Prefix(op)) => add(line, Token::Prefix(op), tokens),
        None => {
            let name = tokens.names.add(word.as_str())?;
            let token = if begins_with_capital(spelling) {
                Token::Cons(name)
            } else {
                Token::Id(name)
            };
            add(line, token, tokens)
        }
    }
}

fn begins_with_capital(spelling: &[char]) -> bool
    ensures { result ≡ spec.begins_with_capital spelling.now }
{
    match spelling {
        [first, ..] => is_capital(*first),
        [] => false,
    }
}

fn add_number(
    alloc: Global,
    line: Line,
    spelling: &[char],
    tokens: &mut Tokens,
) -> Result<(), LexFault>
    requires digits { IsNumeral 10 spelling.now }
    ensures number { OnOk result (spec.AddsPiece Kind.Number line spelling.now tokens.old tokens.new) }
    ensures fault { IfErr result (λ fault. fault ≢ LexFault.NoMemory → spec.IsNoToken Kind.Number line spelling.now fault) }
{
    let text = text_of(alloc, spelling)?;
    match read_int(text.as_bytes()) {
        Some(value) => add(line, Token::Int(value), tokens),
        None => Err(LexFault::WideInt(line)),
    }
}

fn add_char(
    alloc: Global,
    line: Line,
    spelling: &[char],
    tokens: &mut Tokens,
) -> Result<(), LexFault>
    ensures character { OnOk result (spec.AddsPiece Kind.Char line spelling.now tokens.old tokens.new) }
    ensures fault { IfErr result (λ fault. fault ≢ LexFault.NoMemory → spec.IsNoToken Kind.Char line spelling.now fault) }
{
    let text = text_of(alloc, spelling)?;
    match read_char(text.as_bytes()) {
        Some(glyph) => add(line, Token::Char(glyph), tokens),
        None => Err(LexFault::Bad(line)),
    }
}

fn add_text(
    alloc: Global,
    line: Line,
    spelling: &[char],
    tokens: &mut Tokens,
) -> Result<(), LexFault>
    requires characters { spec.HasCharacters spelling.now }
    ensures text { OnOk result (spec.AddsPiece Kind.Text line spelling.now tokens.old tokens.new) }
    ensures fault { IfErr result (λ fault. fault ≢ LexFault.NoMemory → spec.IsNoToken Kind.Text line spelling.now fault) }
{
    let text = text_of(alloc, spelling)?;
    match read_text(text.as_bytes()) {
        Some(characters) => {
            prove!(characters.bytes().len() <= 63);
            add(line, Token::Text(characters), tokens)
        }
        None => Err(LexFault::LongText(line)),
    }
}

fn text_of(alloc: Global, spelling: &[char]) -> Result<String, AllocError>
    ensures { IfOk result (λ text. string_bytes text ≡ encode_utf8_all spelling.now) }
{
    spelling.iter().copied().collect(alloc)
}
