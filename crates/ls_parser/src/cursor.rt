//! Places in the tokens, and single tokens.

ghost use Rattle.std.specs.Prelude.{◌≡◌};
ghost use Rattle.std.specs.Option.{option_map};
ghost use Rattle.ls_parser.specs.Reading.{rest, uncons, starts, Gives, Takes};
ghost use Rattle.ls_parser.specs.Reading as spec;
ghost use Rattle.ls_parser.specs.declared.cursor.Stop.TheVariants.{NoMemory as Refused};

use ls_base::{Line, Name, NoMemory};
use ls_lexer::{Fixed, Token};
use std::alloc::{AllocError, Global};

/// The greatest height of a definition.
pub(crate) const LIMIT: u32 = 200;

/// Why reading stopped.
#[derive(Clone, Copy, Debug, PartialEq, Eq)]
pub(crate) enum Stop {
    /// What stands there is not what should.
    Fault,
    NoMemory,
}

/// What was read: a value, its height, and the place behind it.
pub(crate) type Read<T> = Result<(T, u32, usize), Stop>;

impl From<NoMemory> for Stop {
    ghost from_gives = { λ _ e. e ≡ Refused };

    fn from(_error: NoMemory) -> Stop {
        Stop::NoMemory
    }
}

impl From<AllocError> for Stop {
    ghost from_gives = { λ _ e. e ≡ Refused };

    fn from(_error: AllocError) -> Stop {
        Stop::NoMemory
    }
}

/// The tokens that are read, and the memory for what is read. A function that reads takes the
/// place where it begins, and answers the place behind.
#[derive(Drop)]
pub(crate) struct Parser<'a> {
    pub(crate) alloc: Global,
    pub(crate) tokens: &'a [(Line, Token)],
}

impl Parser<'_> {
    /// The token at a place, and the next place.
    #[tactic(auto, unfolding(crate::specs::Reading::rest))]
    pub(crate) fn next(&self, at: usize) -> Option<(Token, usize)>
        ensures { option_map (λ p. (p.0, rest self.now.tokens.now p.1)) result ≡ uncons (rest self.now.tokens.now at) }
    {
        match self.tokens.get(at) {
            Some((_, token)) => Some((*token, at + 1)),
            None => None,
        }
    }

    /// Whether a word stands at a place.
    #[tactic(auto, unfolding(crate::specs::Reading::starts))]
    pub(crate) fn is(&self, at: usize, word: Fixed) -> bool
        ensures { result ≡ starts word (rest self.now.tokens.now at) }
    {
        match self.next(at) {
            Some((Token::Fixed(found), _)) => found == word,
            _ => false,
        }
    }

    /// The place behind a word.
    #[tactic(auto, unfolding(crate::specs::Reading::word))]
    pub(crate) fn word(&self, at: usize, word: Fixed) -> Result<usize, Stop>
        ensures { Gives (λ at. rest self.now.tokens.now at) result (spec.word word (rest self.now.tokens.now at)) }
    {
        match self.next(at) {
            Some((Token::Fixed(found), at)) if found == word => Ok(at),
            _ => Err(Stop::Fault),
        }
    }

    /// An identifier.
    #[tactic(auto, unfolding(crate::specs::Reading::name))]
    pub(crate) fn name(&self, at: usize) -> Result<(Name, usize), Stop>
        ensures { Takes self.now.tokens.now at result spec.name }
    {
        match self.next(at) {
            Some((Token::Id(name), at)) => Ok((name, at)),
            _ => Err(Stop::Fault),
        }
    }

    /// A constructor.
    #[tactic(auto, unfolding(crate::specs::Reading::constructor))]
    pub(crate) fn constructor(&self, at: usize) -> Result<(Name, usize), Stop>
        ensures { Takes self.now.tokens.now at result spec.constructor }
    {
        match self.next(at) {
            Some((Token::Cons(name), at)) => Ok((name, at)),
            _ => Err(Stop::Fault),
        }
    }
}

/// One more than a height.
pub(crate) fn taller(height: u32) -> Result<u32, Stop>
    ensures { Gives (λ h. h) result (spec.taller height) }
{
    if height < LIMIT {
        Ok(height + 1)
    } else {
        Err(Stop::Fault)
    }
}
