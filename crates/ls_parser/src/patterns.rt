//! Patterns.

ghost use Rattle.std.specs.Prelude.{◌≡◌, ◌+◌, ◌≤◌, ◌<◌, length};
ghost use Rattle.ls_parser.specs.Reading.{Reads};
ghost use Rattle.ls_parser.specs.Patterns as spec;

use crate::{Parser, Read, Stop, taller};
use ls_ast::Pat;
use ls_base::List;
use ls_lexer::Fixed;

impl Parser<'_> {
    /// A pattern, of which the parts nest up to a depth.
    #[cycle(pat)]
    #[tactic(auto, unfolding(crate::specs::Patterns::pattern))]
    pub(crate) fn pattern(&self, at: usize, depth: u32) -> Read<Pat>
        ensures { Reads self.now.tokens.now at result (λ n. spec.pattern n depth) }
    {
        if depth == 0 {
            return Err(Stop::Fault);
        }
        self.pattern_of(at, depth - 1)
    }

    // A pattern, of which the parts nest below it.
    #[cycle(pat)]
    #[tactic(auto, unfolding(crate::specs::Patterns::layer))]
    fn pattern_of(&self, at: usize, parts: u32) -> Read<Pat>
        ensures { Reads self.now.tokens.now at result (λ n. spec.layer n (spec.pattern n parts)) }
    {
        if self.is(at, Fixed::ParenLeft) {
            let at = self.word(at, Fixed::ParenLeft)?;
            self.pattern_inside(at, parts)
        } else if self.is(at, Fixed::Underscore) {
            let at = self.word(at, Fixed::Underscore)?;
            Ok((Pat::Any, 1, at))
        } else {
            let (name, at) = self.name(at)?;
            Ok((Pat::Var(name), 1, at))
        }
    }

    // What stands behind an opening parenthesis.
    #[cycle(pat)]
    #[tactic(auto, unfolding(crate::specs::Patterns::inner))]
    fn pattern_inside(&self, at: usize, parts: u32) -> Read<Pat>
        ensures { Reads self.now.tokens.now at result (λ n. spec.inner n (spec.pattern n parts)) }
    {
        if self.is(at, Fixed::ParenRight) {
            let at = self.word(at, Fixed::ParenRight)?;
            return Ok((Pat::Unit, 1, at));
        }
        let (first, height, at) = self.pattern(at, parts)?;
        if self.is(at, Fixed::Comma) {
            return self.pattern_parts(first, height, at, parts);
        }
        let at = self.word(at, Fixed::ParenRight)?;
        let height = taller(height)?;
        Ok((first, height, at))
    }

    // The parts of a tuple, from its first one on.
    #[cycle(pat)]
    #[tactic(auto, unfolding(crate::specs::Patterns::parts_from))]
    fn pattern_parts(&self, first: Pat, height: u32, at: usize, parts: u32) -> Read<Pat>
        ensures { Reads self.now.tokens.now at result (λ n. spec.parts_from n (spec.pattern n parts) first height) }
    {
        let mut inner = List::new(self.alloc);
        inner.push(first)?;
        let mut highest = height;
        let mut at = at;
        'turns: for turn in 0..self.tokens.len() {
            if !self.is(at, Fixed::Comma) {
                break 'turns;
            }
            at = self.word(at, Fixed::Comma)?;
            let (item, height, behind) = self.pattern(at, parts)?;
            inner.push(item)?;
            highest = highest.max(height);
            at = behind;
        }
        let at = self.word(at, Fixed::ParenRight)?;
        let height = taller(highest)?;
        Ok((Pat::Tuple(inner), height, at))
    }
}
