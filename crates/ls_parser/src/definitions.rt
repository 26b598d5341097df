//! Definitions, and whole files.

ghost use Rattle.std.specs.Prelude.{◌≡◌, ◌+◌, ◌≤◌, ◌<◌, List, [], map, drop, length, IfOk};
ghost use Rattle.std.specs.Option.{option_map};
ghost use Rattle.ls_parser.specs.Answers.{IfSyntax, IsAnswer, IsSyntaxAt};
ghost use Rattle.ls_ast.specs.declared.tree.DefOf.{DefOf};
ghost use Rattle.ls_ast.specs.declared.tree.Plain.{Plain};
ghost use Rattle.ls_base.specs.declared.Line.{Line};
ghost use Rattle.ls_parser.specs.Grammar.{IsFile, StopsAt};
ghost use Rattle.ls_parser.specs.Reading.{rest, Reads};
ghost use Rattle.ls_parser.specs.Definitions as spec;
ghost use Rattle.ls_parser.specs.declared.definitions.SyntaxFault.TheVariants.{NoMemory as Refused};
ghost use Rattle.ls_parser.specs.Making.{plain};
ghost use Rattle.ls_ast.specs.declared.tree.Mark.TheVariants.{Unknown as Unmarked};

use crate::cursor::LIMIT;
use crate::{Level, Parser, Read, Stop, taller};
use ls_ast::{BodyOf, DefOf, Equation, Mark, Pat, Plain};
use ls_base::{Line, List, Name, NoMemory};
use ls_lexer::{Fixed, Token};
use std::alloc::Global;
use thiserror::Error;

/// Why a file was not parsed.
#[derive(Clone, Copy, Debug, PartialEq, Eq, Error)]
pub enum SyntaxFault {
    /// The tokens are definitions and then others, of which no part at the front is a definition
    /// that `let`, `type` or the end follows. The line is that of the first of these.
    #[error("syntax at line {}", .0.0)]
    Syntax(Line),
    #[error("out of memory")]
    NoMemory,
}

impl From<NoMemory> for SyntaxFault {
    ghost from_gives = { λ _ e. e ≡ Refused };

    fn from(_error: NoMemory) -> SyntaxFault {
        SyntaxFault::NoMemory
    }
}

// A mark for each parameter, which nothing tells yet.
fn marks(alloc: Global, params: &List<Pat>) -> Result<List<Mark>, NoMemory>
    ensures { IfOk result (λ made. made ≡ map (λ p. Unmarked) params.now) }
{
    let mut made = List::new(alloc);
    for param in params.as_slice() {
        made.push(Mark::Unknown)?;
    }
    Ok(made)
}

// A note for each parameter.
fn notes(alloc: Global, params: &List<Pat>) -> Result<List<Plain>, NoMemory>
    ensures { IfOk result (λ made. made ≡ map (λ p. plain) params.now) }
{
    let mut made = List::new(alloc);
    for param in params.as_slice() {
        made.push(Plain)?;
    }
    Ok(made)
}

impl Parser<'_> {
    // Whether a pattern begins at a place.
    #[tactic(auto, unfolding(crate::specs::Definitions::begins_pattern))]
    fn begins_pattern(&self, at: usize) -> bool
        ensures { result ≡ spec.begins_pattern (rest self.now.tokens.now at) }
    {
        match self.next(at) {
            Some((Token::Id(_), _)) => true,
            Some((Token::Fixed(word), _)) => word == Fixed::ParenLeft || word == Fixed::Underscore,
            _ => false,
        }
    }

    // A constructor, which has no height.
    #[tactic(auto, unfolding(crate::specs::Definitions::case_alone))]
    fn case_alone(&self, at: usize) -> Read<Name>
        ensures { Reads self.now.tokens.now at result (λ _. spec.case_alone) }
    {
        let (name, at) = self.constructor(at)?;
        Ok((name, 0, at))
    }

    // The constructors of a type.
    #[tactic(auto, unfolding(crate::specs::Definitions::cases))]
    fn cases(&self, at: usize) -> Read<List<Name>>
        ensures { Reads self.now.tokens.now at result spec.cases }
    {
        let (first, height, next) = self.case_alone(at)?;
        let mut items = List::new(self.alloc);
        items.push(first)?;
        let mut highest = height;
        let mut at = next;
        'turns: for turn in 0..self.tokens.len() {
            if !self.is(at, Fixed::Bar) {
                break 'turns;
            }
            at = self.word(at, Fixed::Bar)?;
            let (item, height, behind) = self.case_alone(at)?;
            items.push(item)?;
            highest = highest.max(height);
            at = behind;
        }
        Ok((items, highest, at))
    }

    // `type t = A | B`
    #[tactic(auto, unfolding(crate::specs::Definitions::enumeration))]
    fn enumeration(&self, line: Line, at: usize) -> Read<DefOf<Plain>>
        ensures { Reads self.now.tokens.now at result (λ n. spec.enumeration n line) }
    {
        let at = self.word(at, Fixed::KwType)?;
        let (name, at) = self.name(at)?;
        let at = self.word(at, Fixed::Equal)?;
        let at = self.skip(at, Fixed::Bar);
        let (cases, height, at) = self.cases(at)?;
        let height = taller(height)?;
        Ok((DefOf::Cases { line, name, cases }, height, at))
    }

    // The equations behind `where`, if any.
    #[tactic(auto, unfolding(crate::specs::Definitions::conditions))]
    fn conditions(&self, at: usize, depth: u32) -> Read<List<Equation<Plain>>>
        ensures { Reads self.now.tokens.now at result (λ n. spec.conditions n depth) }
    {
        if self.is(at, Fixed::KwWhere) {
            let at = self.word(at, Fixed::KwWhere)?;
            let at = self.skip(at, Fixed::KwRec);
            self.equations(false, at, depth)
        } else {
            Ok((List::new(self.alloc), 0, at))
        }
    }

    // The body of a definition.
    #[tactic(auto, unfolding(crate::specs::Definitions::body))]
    fn body(&self, at: usize, depth: u32) -> Read<BodyOf<Plain>>
        ensures { Reads self.now.tokens.now at result (λ n. spec.body n depth) }
    {
        let (result, first, at) = self.phrase(Level::Expr, at, depth)?;
        let (eqs, second, at) = self.conditions(at, depth)?;
        let height = taller(first.max(second))?;
        Ok((BodyOf { result, eqs }, height, at))
    }

    // The parameters of a definition.
    #[tactic(auto, unfolding(crate::specs::Definitions::params))]
    fn params(&self, at: usize, depth: u32) -> Read<List<Pat>>
        ensures { Reads self.now.tokens.now at result (λ n. spec.params n depth) }
    {
        let mut params = List::new(self.alloc);
        let mut highest = 0;
        let mut at = at;
        'turns: for turn in 0..self.tokens.len() {
            if !self.begins_pattern(at) {
                break 'turns;
            }
            let (item, height, behind) = self.pattern(at, depth)?;
            params.push(item)?;
            highest = highest.max(height);
            at = behind;
        }
        Ok((params, highest, at))
    }

    // A definition behind `let`.
    #[tactic(auto, unfolding(crate::specs::Definitions::function))]
    fn function(&self, node: bool, line: Line, at: usize, depth: u32) -> Read<DefOf<Plain>>
        requires { 0 < depth }
        ensures { Reads self.now.tokens.now at result (λ n. spec.function n depth node line) }
    {
        let (name, at) = self.name(at)?;
        let (params, first, at) = self.params(at, depth)?;
        if node && params.len() == 0 {
            return Err(Stop::Fault);
        }
        let at = self.word(at, Fixed::Equal)?;
        let (body, second, at) = self.body(at, depth - 1)?;
        let height = taller(first.max(second))?;
        let marks = marks(self.alloc, &params)?;
        let notes = notes(self.alloc, &params)?;
        Ok((
            DefOf::Let {
                line,
                node,
                name,
                params,
                marks,
                notes,
                body,
            },
            height,
            at,
        ))
    }

    // A definition whose first token stands in a line.
    #[tactic(auto, unfolding(crate::specs::Definitions::definition_at))]
    fn definition(&self, line: Line, at: usize, depth: u32) -> Read<DefOf<Plain>>
        requires { 0 < depth }
        ensures { Reads self.now.tokens.now at result (λ n. spec.definition_at n depth line) }
    {
        if self.is(at, Fixed::KwType) {
            return self.enumeration(line, at);
        }
        let at = self.word(at, Fixed::KwLet)?;
        let node = self.is(at, Fixed::KwNode);
        let at = self.skip(at, Fixed::KwNode);
        self.function(node, line, at, depth)
    }

    // Whether a definition may end at a place.
    #[tactic(auto, unfolding(crate::specs::Definitions::ends))]
    fn ends(&self, at: usize) -> bool
        ensures { result ≡ spec.ends (rest self.now.tokens.now at) }
    {
        match self.next(at) {
            Some((Token::Fixed(word), _)) => word == Fixed::KwLet || word == Fixed::KwType,
            Some(_) => false,
            None => true,
        }
    }

    // The line of the token at a place.
    fn line(&self, at: usize) -> Option<Line>
        ensures { result ≡ spec.first_line (drop at self.now.tokens.now) }
    {
        match self.tokens.get(at) {
            Some((line, _)) => Some(*line),
            None => None,
        }
    }

    // A definition that may end where it does.
    #[tactic(auto, unfolding(crate::specs::Definitions::followed))]
    fn followed(&self, line: Line, at: usize) -> Result<(DefOf<Plain>, usize), SyntaxFault>
        ensures { spec.Finds (λ x. (x.0, rest self.now.tokens.now x.1)) line result (spec.followed (length self.now.tokens.now) line (rest self.now.tokens.now at)) }
    {
        match self.definition(line, at, LIMIT - 1) {
            Ok((def, _, next)) => {
                if self.ends(next) {
                    Ok((def, next))
                } else {
                    Err(SyntaxFault::Syntax(line))
                }
            }
            Err(Stop::Fault) => Err(SyntaxFault::Syntax(line)),
            Err(Stop::NoMemory) => Err(SyntaxFault::NoMemory),
        }
    }

    // The definitions of the file, as they are read.
    fn file(&self) -> Result<List<DefOf<Plain>>, SyntaxFault>
        ensures { spec.IsRead result (spec.file_from self.now.tokens.now (length self.now.tokens.now) [] self.now.tokens.now) }
    {
        let mut defs = List::new(self.alloc);
        let mut at = 0;
        'turns: for turn in 0..self.tokens.len() {
            let Some(line) = self.line(at) else {
                break 'turns;
            };
            match self.followed(line, at) {
                Ok((def, next)) => {
                    defs.push(def)?;
                    at = next;
                }
                Err(fault) => return Err(fault),
            }
        }
        Ok(defs)
    }

    /// The definitions of the file, by the grammar.
    pub(crate) fn defs(&self) -> Result<List<DefOf<Plain>>, SyntaxFault>
        ensures file { IfOk result (λ defs. IsFile defs self.now.tokens.now) }
        ensures fault { IfSyntax result (λ line. StopsAt self.now.tokens.now line) }
        ensures only { (defs : List (DefOf Plain)) → IsFile defs self.now.tokens.now → IsAnswer (λ found. found) result defs }
        ensures stops { (line : Line) → StopsAt self.now.tokens.now line → IsSyntaxAt result line }
    {
        self.file()
    }
}
