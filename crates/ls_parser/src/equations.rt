//! Equations, and the blocks that hold some.

ghost use Rattle.std.specs.Prelude.{◌≡◌, OnOk};
ghost use Rattle.ls_parser.specs.Reading.{rest, Reads, Takes};
ghost use Rattle.ls_parser.specs.Equations as spec;
ghost use Rattle.ls_parser.specs.Making.{with_strong, with_weak};

use crate::{Level, Parser, Read, Stop, taller};
use ls_ast::{Arm, Equation, Expr, Guard, Handler, Pat, Plain, State, Test};
use ls_base::{List, Name, NoMemory};
use ls_lexer::{Fixed, Token};

fn opens(word: Fixed) -> bool
    ensures { result ≡ spec.opens word }
{
    match word {
        Fixed::KwClock
        | Fixed::KwLast
        | Fixed::KwEmit
        | Fixed::KwReset
        | Fixed::KwMatch
        | Fixed::KwPresent
        | Fixed::KwAutomaton
        | Fixed::ParenLeft
        | Fixed::Underscore => true,
        _ => false,
    }
}

fn case_of(token: Token) -> Option<Name>
    ensures { result ≡ spec.case_of token }
{
    match token {
        Token::Cons(name) => Some(name),
        Token::Fixed(Fixed::KwTrue) => Some(Name::TRUE),
        Token::Fixed(Fixed::KwFalse) => Some(Name::FALSE),
        _ => None,
    }
}

// Puts a guard among the strong ones or among the weak ones.
fn put(
    strong: &mut List<Guard<Plain>>,
    weak: &mut List<Guard<Plain>>,
    is_strong: bool,
    guard: Guard<Plain>,
) -> Result<(), NoMemory>
    ensures strong { OnOk result (strong.new ≡ with_strong (is_strong, guard) strong.old) }
    ensures weak { OnOk result (weak.new ≡ with_weak (is_strong, guard) weak.old) }
{
    if is_strong {
        strong.push(guard)
    } else {
        weak.push(guard)
    }
}

impl Parser<'_> {
    /// The place behind a word, if it stands at a place.
    #[tactic(auto, unfolding(crate::specs::Equations::skip))]
    pub(crate) fn skip(&self, at: usize, word: Fixed) -> usize
        ensures { rest self.now.tokens.now result ≡ spec.skip word (rest self.now.tokens.now at) }
    {
        match self.next(at) {
            Some((Token::Fixed(found), next)) if found == word => next,
            _ => at,
        }
    }

    // The name of an arm's case.
    #[tactic(auto, unfolding(crate::specs::Equations::case_name))]
    fn case_name(&self, at: usize) -> Result<(Name, usize), Stop>
        ensures { Takes self.now.tokens.now at result spec.case_name }
    {
        let Some((token, at)) = self.next(at) else {
            return Err(Stop::Fault);
        };
        match case_of(token) {
            Some(name) => Ok((name, at)),
            None => Err(Stop::Fault),
        }
    }

    // Whether a bar stands at a place, and no `_` behind it.
    #[tactic(auto, unfolding(crate::specs::Equations::begins_arm))]
    fn begins_arm(&self, at: usize) -> bool
        ensures { result ≡ spec.begins_arm (rest self.now.tokens.now at) }
    {
        match self.next(at) {
            Some((Token::Fixed(word), at)) => word == Fixed::Bar && !self.is(at, Fixed::Underscore),
            _ => false,
        }
    }

    // Whether an equation begins at a place.
    #[tactic(auto, unfolding(crate::specs::Equations::begins_equation))]
    fn begins_equation(&self, at: usize) -> bool
        ensures { result ≡ spec.begins_equation (rest self.now.tokens.now at) }
    {
        match self.next(at) {
            Some((Token::Id(_), _)) => true,
            Some((Token::Fixed(word), _)) => opens(word),
            _ => false,
        }
    }

    // Whether a guard of a state begins at a place.
    #[tactic(auto, unfolding(crate::specs::Equations::begins_guard))]
    fn begins_guard(&self, at: usize) -> bool
        ensures { result ≡ spec.begins_guard (rest self.now.tokens.now at) }
    {
        self.is(at, Fixed::KwUnless) || self.is(at, Fixed::KwUntil)
    }

    // A word, a name, `=` and an expression.
    #[tactic(auto, unfolding(crate::specs::Equations::bound))]
    fn bound(&self, word: Fixed, at: usize, parts: u32) -> Read<(Name, Expr<Plain>)>
        ensures { Reads self.now.tokens.now at result (λ n. spec.of_parts parts spec.bound n word) }
    {
        let at = self.word(at, word)?;
        let (name, at) = self.name(at)?;
        let at = self.word(at, Fixed::Equal)?;
        let (value, height, at) = self.phrase(Level::Expr, at, parts)?;
        let height = taller(height)?;
        Ok(((name, value), height, at))
    }

    // `p = e`
    #[tactic(auto, unfolding(crate::specs::Equations::plain_equation))]
    fn plain_equation(&self, at: usize, parts: u32) -> Read<Equation<Plain>>
        ensures { Reads self.now.tokens.now at result (spec.of_parts parts spec.plain_equation) }
    {
        let (pattern, first, at) = self.pattern(at, parts)?;
        let at = self.word(at, Fixed::Equal)?;
        let (value, second, at) = self.phrase(Level::Expr, at, parts)?;
        let height = taller(first.max(second))?;
        Ok((Equation::Plain(pattern, value), height, at))
    }

    // The pattern of a test, in parentheses, if there is one.
    #[tactic(auto, unfolding(crate::specs::Equations::tested))]
    fn tested(&self, at: usize, parts: u32) -> Read<Option<Pat>>
        ensures { Reads self.now.tokens.now at result (spec.of_parts parts spec.tested) }
    {
        if self.is(at, Fixed::ParenLeft) {
            let at = self.word(at, Fixed::ParenLeft)?;
            let (pattern, height, at) = self.pattern(at, parts)?;
            let at = self.word(at, Fixed::ParenRight)?;
            Ok((Some(pattern), height, at))
        } else {
            Ok((None, 0, at))
        }
    }

    // A guard of a state: whether it is strong, and itself.
    #[tactic(auto, unfolding(crate::specs::Equations::transition))]
    fn transition(&self, at: usize, parts: u32) -> Read<(bool, Guard<Plain>)>
        ensures { Reads self.now.tokens.now at result (spec.of_parts parts spec.transition) }
    {
        let (strong, at) = self.either(at, Fixed::KwUnless, Fixed::KwUntil)?;
        let (cond, height, at) = self.phrase(Level::Expr, at, parts)?;
        let height = taller(height)?;
        let (restart, at) = self.either(at, Fixed::KwThen, Fixed::KwContinue)?;
        let (target, at) = self.constructor(at)?;
        let eqs = List::new(self.alloc);
        Ok((
            (
                strong,
                Guard {
                    eqs,
                    cond,
                    restart,
                    target,
                },
            ),
            height,
            at,
        ))
    }

    // Which of two words stands at a place, and the place behind it.
    #[tactic(auto, unfolding(crate::specs::Equations::either))]
    fn either(&self, at: usize, first: Fixed, second: Fixed) -> Result<(bool, usize), Stop>
        ensures { Takes self.now.tokens.now at result (spec.either first second) }
    {
        if self.is(at, first) {
            Ok((true, self.word(at, first)?))
        } else {
            Ok((false, self.word(at, second)?))
        }
    }

    // The guards of a state, strong ones and weak ones.
    #[tactic(auto, unfolding(crate::specs::Equations::guards))]
    fn guards(&self, at: usize, parts: u32) -> Read<(List<Guard<Plain>>, List<Guard<Plain>>)>
        ensures { Reads self.now.tokens.now at result (spec.of_parts parts spec.guards) }
    {
        let ((first_strong, first), height, behind) = self.transition(at, parts)?;
        let mut strong = List::new(self.alloc);
        let mut weak = List::new(self.alloc);
        put(&mut strong, &mut weak, first_strong, first)?;
        let mut highest = height;
        let mut at = behind;
        'turns: for turn in 0..self.tokens.len() {
            if !self.begins_guard(at) {
                break 'turns;
            }
            let ((is_strong, guard), height, next) = self.transition(at, parts)?;
            put(&mut strong, &mut weak, is_strong, guard)?;
            highest = highest.max(height);
            at = next;
        }
        Ok(((strong, weak), highest, at))
    }

    // What stands behind the equations of a state.
    #[tactic(auto, unfolding(crate::specs::Equations::exits))]
    fn exits(&self, at: usize, parts: u32) -> Read<(List<Guard<Plain>>, List<Guard<Plain>>)>
        ensures { Reads self.now.tokens.now at result (spec.of_parts parts spec.exits) }
    {
        if self.is(at, Fixed::KwDone) {
            let at = self.word(at, Fixed::KwDone)?;
            Ok(((List::new(self.alloc), List::new(self.alloc)), 0, at))
        } else if self.begins_guard(at) {
            let (guards, height, at) = self.guards(at, parts)?;
            Ok((guards, height, self.skip(at, Fixed::KwDone)))
        } else {
            Err(Stop::Fault)
        }
    }

    /// An equation, in a `do` or elsewhere, of which the parts nest up to a depth.
    #[cycle(eqs)]
    #[tactic(auto, unfolding(crate::specs::Equations::equation_at))]
    pub(crate) fn equation(&self, in_do: bool, at: usize, depth: u32) -> Read<Equation<Plain>>
        ensures { Reads self.now.tokens.now at result (λ n. spec.equation_at n depth in_do) }
    {
        if depth == 0 {
            return Err(Stop::Fault);
        }
        self.equation_of(in_do, at, depth - 1)
    }

    // An equation, of which the parts nest below it.
    #[cycle(eqs)]
    #[tactic(auto, unfolding(crate::specs::Equations::equation))]
    fn equation_of(&self, in_do: bool, at: usize, parts: u32) -> Read<Equation<Plain>>
        ensures { Reads self.now.tokens.now at result (λ n. spec.of_parts parts spec.equation n in_do) }
    {
        if !in_do && self.is(at, Fixed::KwClock) {
            let ((name, value), height, at) = self.bound(Fixed::KwClock, at, parts)?;
            Ok((Equation::Clock(name, value), height, at))
        } else if !in_do && self.is(at, Fixed::KwLast) {
            let ((name, value), height, at) = self.bound(Fixed::KwLast, at, parts)?;
            Ok((Equation::Initial(name, value), height, at))
        } else if self.is(at, Fixed::KwEmit) {
            let ((name, value), height, at) = self.bound(Fixed::KwEmit, at, parts)?;
            Ok((Equation::Emit(name, value), height, at))
        } else if self.is(at, Fixed::KwReset) {
            self.reset(in_do, at, parts)
        } else if self.is(at, Fixed::KwMatch) {
            self.matching(at, parts)
        } else if self.is(at, Fixed::KwPresent) {
            self.presence(at, parts)
        } else if self.is(at, Fixed::KwAutomaton) {
            self.automaton(at, parts)
        } else {
            self.plain_equation(at, parts)
        }
    }

    /// Equations between which `and` stands.
    #[cycle(eqs)]
    #[tactic(auto, unfolding(crate::specs::Equations::equations))]
    pub(crate) fn equations(
        &self,
        in_do: bool,
        at: usize,
        parts: u32,
    ) -> Read<List<Equation<Plain>>>
        ensures { Reads self.now.tokens.now at result (λ n. spec.of_parts parts spec.equations n in_do) }
    {
        let (first, height, next) = self.equation(in_do, at, parts)?;
        let mut items = List::new(self.alloc);
        items.push(first)?;
        let mut highest = height;
        let mut at = next;
        'turns: for turn in 0..self.tokens.len() {
            if !self.is(at, Fixed::KwAnd) {
                break 'turns;
            }
            at = self.word(at, Fixed::KwAnd)?;
            let (item, height, behind) = self.equation(in_do, at, parts)?;
            items.push(item)?;
            highest = highest.max(height);
            at = behind;
        }
        Ok((items, highest, at))
    }

    // `reset .. every e`
    #[cycle(eqs)]
    #[tactic(auto, unfolding(crate::specs::Equations::reset))]
    fn reset(&self, in_do: bool, at: usize, parts: u32) -> Read<Equation<Plain>>
        ensures { Reads self.now.tokens.now at result (λ n. spec.of_parts parts spec.reset n in_do) }
    {
        let at = self.word(at, Fixed::KwReset)?;
        let (inner, first, at) = self.equations(in_do, at, parts)?;
        let at = self.word(at, Fixed::KwEvery)?;
        let (condition, second, at) = self.phrase(Level::Expr, at, parts)?;
        let height = taller(first.max(second))?;
        Ok((Equation::Reset(inner, condition), height, at))
    }

    // A handler with its end.
    #[cycle(eqs)]
    #[tactic(auto, unfolding(crate::specs::Equations::handler))]
    fn handler(&self, at: usize, parts: u32) -> Read<Handler<Plain>>
        ensures { Reads self.now.tokens.now at result (spec.of_parts parts spec.handler) }
    {
        let (handler, height, at) = self.doing(at, parts)?;
        Ok((handler, height, self.word(at, Fixed::KwDone)?))
    }

    // An arm of a `match`.
    #[cycle(eqs)]
    #[tactic(auto, unfolding(crate::specs::Equations::arm))]
    fn arm(&self, at: usize, parts: u32) -> Read<Arm<Plain>>
        ensures { Reads self.now.tokens.now at result (spec.of_parts parts spec.arm) }
    {
        let (name, at) = self.case_name(at)?;
        let at = self.word(at, Fixed::Arrow)?;
        let (handler, height, at) = self.handler(at, parts)?;
        Ok((
            Arm {
                case: Some(name),
                handler,
            },
            height,
            at,
        ))
    }

    // The arms of a `match` that have a case.
    #[cycle(eqs)]
    #[tactic(auto, unfolding(crate::specs::Equations::arms))]
    fn arms(&self, at: usize, parts: u32) -> Read<List<Arm<Plain>>>
        ensures { Reads self.now.tokens.now at result (spec.of_parts parts spec.arms) }
    {
        let (first, height, next) = self.arm(at, parts)?;
        let mut items = List::new(self.alloc);
        items.push(first)?;
        let mut highest = height;
        let mut at = next;
        'turns: for turn in 0..self.tokens.len() {
            if !self.begins_arm(at) {
                break 'turns;
            }
            at = self.word(at, Fixed::Bar)?;
            let (item, height, behind) = self.arm(at, parts)?;
            items.push(item)?;
            highest = highest.max(height);
            at = behind;
        }
        Ok((items, highest, at))
    }

    // The arm for all other cases, if there is one, behind the others.
    #[cycle(eqs)]
    #[tactic(auto, unfolding(crate::specs::Equations::other_arm))]
    fn other_arm(
        &self,
        arms: List<Arm<Plain>>,
        height: u32,
        at: usize,
        parts: u32,
    ) -> Read<List<Arm<Plain>>>
        ensures { Reads self.now.tokens.now at result (λ n. spec.of_parts parts spec.other_arm n arms height) }
    {
        if !self.is(at, Fixed::Bar) {
            return Ok((arms, height, at));
        }
        let at = self.word(at, Fixed::Bar)?;
        let at = self.word(at, Fixed::Underscore)?;
        let at = self.word(at, Fixed::Arrow)?;
        let (handler, second, at) = self.handler(at, parts)?;
        let mut arms = arms;
        arms.push(Arm {
            case: None,
            handler,
        })?;
        Ok((arms, height.max(second), at))
    }

    // `match e with .. end`
    #[cycle(eqs)]
    #[tactic(auto, unfolding(crate::specs::Equations::matching))]
    fn matching(&self, at: usize, parts: u32) -> Read<Equation<Plain>>
        ensures { Reads self.now.tokens.now at result (spec.of_parts parts spec.matching) }
    {
        let at = self.word(at, Fixed::KwMatch)?;
        let (value, first, at) = self.phrase(Level::Expr, at, parts)?;
        let at = self.word(at, Fixed::KwWith)?;
        let at = self.skip(at, Fixed::Bar);
        let (arms, second, at) = self.arms(at, parts)?;
        let (arms, second, at) = self.other_arm(arms, second, at, parts)?;
        let at = self.word(at, Fixed::KwEnd)?;
        let height = taller(first.max(second))?;
        Ok((Equation::Match(value, arms), height, at))
    }

    // A test of a `present`.
    #[cycle(eqs)]
    #[tactic(auto, unfolding(crate::specs::Equations::one_test))]
    fn test(&self, at: usize, parts: u32) -> Read<Test<Plain>>
        ensures { Reads self.now.tokens.now at result (spec.of_parts parts spec.one_test) }
    {
        let (signal, at) = self.name(at)?;
        let (pat, first, at) = self.tested(at, parts)?;
        let at = self.word(at, Fixed::Arrow)?;
        let (handler, second, at) = self.handler(at, parts)?;
        let height = first.max(second);
        Ok((
            Test {
                signal,
                pat,
                handler,
            },
            height,
            at,
        ))
    }

    // The tests of a `present`.
    #[cycle(eqs)]
    #[tactic(auto, unfolding(crate::specs::Equations::tests))]
    fn tests(&self, at: usize, parts: u32) -> Read<List<Test<Plain>>>
        ensures { Reads self.now.tokens.now at result (spec.of_parts parts spec.tests) }
    {
        let (first, height, next) = self.test(at, parts)?;
        let mut items = List::new(self.alloc);
        items.push(first)?;
        let mut highest = height;
        let mut at = next;
        'turns: for turn in 0..self.tokens.len() {
            if !self.is(at, Fixed::Bar) {
                break 'turns;
            }
            at = self.word(at, Fixed::Bar)?;
            let (item, height, behind) = self.test(at, parts)?;
            items.push(item)?;
            highest = highest.max(height);
            at = behind;
        }
        Ok((items, highest, at))
    }

    // The handler behind `else`, if there is one.
    #[cycle(eqs)]
    #[tactic(auto, unfolding(crate::specs::Equations::otherwise))]
    fn otherwise(&self, at: usize, parts: u32) -> Read<Option<Handler<Plain>>>
        ensures { Reads self.now.tokens.now at result (spec.of_parts parts spec.otherwise) }
    {
        if self.is(at, Fixed::KwElse) {
            let at = self.word(at, Fixed::KwElse)?;
            let (handler, height, at) = self.handler(at, parts)?;
            Ok((Some(handler), height, at))
        } else {
            Ok((None, 0, at))
        }
    }

    // `present .. end`
    #[cycle(eqs)]
    #[tactic(auto, unfolding(crate::specs::Equations::presence))]
    fn presence(&self, at: usize, parts: u32) -> Read<Equation<Plain>>
        ensures { Reads self.now.tokens.now at result (spec.of_parts parts spec.presence) }
    {
        let at = self.word(at, Fixed::KwPresent)?;
        let at = self.skip(at, Fixed::Bar);
        let (tests, first, at) = self.tests(at, parts)?;
        let (other, second, at) = self.otherwise(at, parts)?;
        let at = self.word(at, Fixed::KwEnd)?;
        let height = taller(first.max(second))?;
        Ok((Equation::Present(tests, other), height, at))
    }

    // A state of an automaton.
    #[cycle(eqs)]
    #[tactic(auto, unfolding(crate::specs::Equations::state))]
    fn state(&self, at: usize, parts: u32) -> Read<State<Plain>>
        ensures { Reads self.now.tokens.now at result (spec.of_parts parts spec.state) }
    {
        let (name, at) = self.constructor(at)?;
        let at = self.word(at, Fixed::Arrow)?;
        let (handler, first, at) = self.doing(at, parts)?;
        let ((strong, weak), second, at) = self.exits(at, parts)?;
        let height = first.max(second);
        Ok((
            State {
                name,
                handler,
                strong,
                weak,
            },
            height,
            at,
        ))
    }

    // The states of an automaton.
    #[cycle(eqs)]
    #[tactic(auto, unfolding(crate::specs::Equations::states))]
    fn states(&self, at: usize, parts: u32) -> Read<List<State<Plain>>>
        ensures { Reads self.now.tokens.now at result (spec.of_parts parts spec.states) }
    {
        let (first, height, next) = self.state(at, parts)?;
        let mut items = List::new(self.alloc);
        items.push(first)?;
        let mut highest = height;
        let mut at = next;
        'turns: for turn in 0..self.tokens.len() {
            if !self.is(at, Fixed::Bar) {
                break 'turns;
            }
            at = self.word(at, Fixed::Bar)?;
            let (item, height, behind) = self.state(at, parts)?;
            items.push(item)?;
            highest = highest.max(height);
            at = behind;
        }
        Ok((items, highest, at))
    }

    // `automaton .. end`
    #[cycle(eqs)]
    #[tactic(auto, unfolding(crate::specs::Equations::automaton))]
    fn automaton(&self, at: usize, parts: u32) -> Read<Equation<Plain>>
        ensures { Reads self.now.tokens.now at result (spec.of_parts parts spec.automaton) }
    {
        let at = self.word(at, Fixed::KwAutomaton)?;
        let at = self.skip(at, Fixed::Bar);
        let (states, height, at) = self.states(at, parts)?;
        let at = self.word(at, Fixed::KwEnd)?;
        let height = taller(height)?;
        Ok((Equation::Automaton(states), height, at))
    }

    // The equations between `let` and `in`, if any.
    #[cycle(eqs)]
    #[tactic(auto, unfolding(crate::specs::Equations::locals))]
    fn locals(&self, at: usize, parts: u32) -> Read<List<Equation<Plain>>>
        ensures { Reads self.now.tokens.now at result (spec.of_parts parts spec.locals) }
    {
        if self.is(at, Fixed::KwLet) {
            let at = self.word(at, Fixed::KwLet)?;
            let at = self.skip(at, Fixed::KwRec);
            let (locals, height, at) = self.equations(false, at, parts)?;
            let at = self.word(at, Fixed::KwIn)?;
            Ok((locals, height, at))
        } else {
            Ok((List::new(self.alloc), 0, at))
        }
    }

    // The equations of a `do`, if any.
    #[cycle(eqs)]
    #[tactic(auto, unfolding(crate::specs::Equations::within))]
    fn within(&self, at: usize, parts: u32) -> Read<List<Equation<Plain>>>
        ensures { Reads self.now.tokens.now at result (spec.of_parts parts spec.within) }
    {
        if self.begins_equation(at) {
            self.equations(true, at, parts)
        } else {
            Ok((List::new(self.alloc), 0, at))
        }
    }

    // A handler without its end, of which the parts nest below it.
    #[cycle(eqs)]
    #[tactic(auto, unfolding(crate::specs::Equations::doing))]
    fn doing_of(&self, at: usize, parts: u32) -> Read<Handler<Plain>>
        ensures { Reads self.now.tokens.now at result (spec.of_parts parts spec.doing) }
    {
        let (locals, first, at) = self.locals(at, parts)?;
        let at = self.word(at, Fixed::KwDo)?;
        let (eqs, second, at) = self.within(at, parts)?;
        let height = taller(first.max(second))?;
        Ok((Handler { locals, eqs }, height, at))
    }

    // A handler without its end, of which the parts nest up to a depth.
    #[cycle(eqs)]
    #[tactic(auto, unfolding(crate::specs::Equations::doing_at))]
    fn doing(&self, at: usize, depth: u32) -> Read<Handler<Plain>>
        ensures { Reads self.now.tokens.now at result (λ n. spec.doing_at n depth) }
    {
        if depth == 0 {
            return Err(Stop::Fault);
        }
        self.doing_of(at, depth - 1)
    }
}
