//! Expressions.

ghost use Rattle.std.specs.Prelude.{◌≡◌, Some};
ghost use Rattle.std.specs.Option.{option_map};
ghost use Rattle.ls_parser.specs.Reading.{rest, Gives, Reads, Takes};
ghost use Rattle.ls_parser.specs.Expressions as spec;
ghost use Rattle.ls_parser.specs.Making as make;

use crate::{Infix, Level, Parser, Read, Stop, taller};
use ls_ast::{Case, Expr, Form, Plain};
use ls_base::{Boxed, List, Name};
use ls_lexer::{Fixed, Token};
use ls_ops::{Op, OpSign, sign_of};
use ls_value::Leaf;

/// How many operands an operator has.
pub fn operands(op: Op) -> usize
    ensures { result ≡ make.operands op }
{
    match sign_of(op) {
        OpSign::Ints(n) | OpSign::IntPred(n) | OpSign::Bools(n) => n as usize,
        OpSign::CharPred | OpSign::CharInt => 1,
        OpSign::Same => 2,
        OpSign::Choice => 3,
    }
}

fn truth(word: Fixed) -> Option<bool>
    ensures { result ≡ make.truth word }
{
    match word {
        Fixed::KwTrue => Some(true),
        Fixed::KwFalse => Some(false),
        _ => None,
    }
}

// A literal, a constructor or a name.
fn simple(token: Token) -> Option<Form<Plain>>
    ensures { option_map make.node result ≡ make.simple token }
{
    match token {
        Token::Int(value) => Some(Form::Leaf(Leaf::Int(value))),
        Token::Char(value) => Some(Form::Leaf(Leaf::Char(value))),
        Token::Text(value) => Some(Form::Leaf(Leaf::Text(value))),
        Token::Cons(name) => Some(Form::Case(name)),
        Token::Id(name) => Some(Form::Var(name)),
        Token::Fixed(word) => match truth(word) {
            Some(value) => Some(Form::Leaf(Leaf::Bool(value))),
            None => None,
        },
        Token::Prefix(_) => None,
    }
}

fn opens(word: Fixed) -> bool
    ensures { result ≡ spec.opens word }
{
    match word {
        Fixed::KwTrue | Fixed::KwFalse | Fixed::KwLast | Fixed::Question | Fixed::ParenLeft => true,
        _ => false,
    }
}

// Whether an operator goes on from a phrase of a level inside one of the level `least`.
fn goes_on(least: Level, from: Level, operator: Infix) -> bool
    ensures { result ≡ spec.goes_on least from operator }
{
    let level = operator.level();
    !(level.rank() < least.rank()) && !(from.rank() < level.left().rank())
}

impl Parser<'_> {
    fn node(&self, form: Form<Plain>) -> Result<Expr<Plain>, Stop>
        ensures { Gives (λ e. e) result (Some (make.node form)) }
    {
        Ok(Expr {
            note: Plain,
            form: Boxed::new(self.alloc, form)?,
        })
    }

    /// Whether an atom begins at a place.
    #[tactic(auto, unfolding(crate::specs::Expressions::begins_atom))]
    pub(crate) fn begins_atom(&self, at: usize) -> bool
        ensures { result ≡ spec.begins_atom (rest self.now.tokens.now at) }
    {
        match self.next(at) {
            Some((Token::Fixed(word), _)) => opens(word),
            Some((Token::Prefix(_), _)) => false,
            Some(_) => true,
            None => false,
        }
    }

    // Whether a name or `run` stands at a place.
    #[tactic(auto, unfolding(crate::specs::Expressions::begins_call))]
    fn begins_call(&self, at: usize) -> bool
        ensures { result ≡ spec.begins_call (rest self.now.tokens.now at) }
    {
        match self.next(at) {
            Some((Token::Id(_), _)) => true,
            Some((Token::Fixed(word), _)) => word == Fixed::KwRun,
            _ => false,
        }
    }

    // Whether a constructor and an arrow stand at a place.
    fn begins_case(&self, at: usize) -> bool
        ensures { result ≡ spec.begins_case (rest self.now.tokens.now at) }
    {
        match self.next(at) {
            Some((Token::Cons(_), at)) => self.is(at, Fixed::Arrow),
            _ => false,
        }
    }

    // Whether a branch of a merge begins at a place.
    #[tactic(auto, unfolding(crate::specs::Expressions::begins_branch))]
    fn begins_branch(&self, at: usize) -> bool
        ensures { result ≡ spec.begins_branch (rest self.now.tokens.now at) }
    {
        match self.next(at) {
            Some((Token::Fixed(word), at)) => word == Fixed::ParenLeft && self.begins_case(at),
            _ => false,
        }
    }

    // The operator that stands at a place behind an operand.
    #[tactic(auto, unfolding(crate::specs::Expressions::infix_at))]
    fn infix(&self, at: usize) -> Option<(Infix, usize)>
        ensures { option_map (λ p. (p.0, rest self.now.tokens.now p.1)) result ≡ spec.infix_at (rest self.now.tokens.now at) }
    {
        let Some((Token::Fixed(word), at)) = self.next(at) else {
            return None;
        };
        let infix = Infix::of(word)?;
        Some((infix, at))
    }

    // A condition of `when`.
    #[tactic(auto, unfolding(crate::specs::Expressions::condition))]
    fn condition(&self, at: usize) -> Result<((Name, Case), usize), Stop>
        ensures { Takes self.now.tokens.now at result spec.condition }
    {
        match self.next(at) {
            Some((Token::Id(name), at)) => Ok(((name, Case::True), at)),
            Some((Token::Cons(case), at)) => {
                let at = self.word(at, Fixed::ParenLeft)?;
                let (name, at) = self.name(at)?;
                let at = self.word(at, Fixed::ParenRight)?;
                Ok(((name, Case::Of(case)), at))
            }
            _ => Err(Stop::Fault),
        }
    }

    // An operator with one operand.
    fn one(&self, op: Op, inner: Expr<Plain>) -> Result<Expr<Plain>, Stop>
        ensures { Gives (λ e. e) result (Some (make.unary op inner)) }
    {
        let mut args = List::new(self.alloc);
        args.push(inner)?;
        self.node(Form::Op(op, args))
    }

    // An operator with two operands.
    fn two(&self, op: Op, left: Expr<Plain>, right: Expr<Plain>) -> Result<Expr<Plain>, Stop>
        ensures { Gives (λ e. e) result (Some (make.binary op left right)) }
    {
        let mut args = List::new(self.alloc);
        args.push(left)?;
        args.push(right)?;
        self.node(Form::Op(op, args))
    }

    // `if c then a else b`
    fn chosen(
        &self,
        condition: Expr<Plain>,
        yes: Expr<Plain>,
        no: Expr<Plain>,
    ) -> Result<Expr<Plain>, Stop>
        ensures { Gives (λ e. e) result (Some (make.chosen (condition, (yes, no)))) }
    {
        let mut args = List::new(self.alloc);
        args.push(condition)?;
        args.push(yes)?;
        args.push(no)?;
        self.node(Form::Op(Op::Choose, args))
    }

    // `merge c a b`
    fn merged(&self, name: Name, yes: Expr<Plain>, no: Expr<Plain>) -> Result<Expr<Plain>, Stop>
        ensures { Gives (λ e. e) result (Some (make.merged name yes no)) }
    {
        let mut branches = List::new(self.alloc);
        branches.push((Case::True, yes))?;
        branches.push((Case::False, no))?;
        self.node(Form::Merge(name, branches))
    }

    // A call, or a name alone.
    fn applied(&self, run: bool, head: Name, args: List<Expr<Plain>>) -> Result<Expr<Plain>, Stop>
        ensures { Gives (λ e. e) result (make.applied run head args) }
    {
        if args.len() > 0 {
            self.node(Form::Call {
                run,
                head,
                args,
                every: None,
            })
        } else if run {
            Err(Stop::Fault)
        } else {
            self.node(Form::Var(head))
        }
    }

    // A literal, a constructor or a name at a place.
    #[tactic(auto, unfolding(crate::specs::Expressions::single))]
    fn single(&self, at: usize) -> Read<Expr<Plain>>
        ensures { Reads self.now.tokens.now at result (λ _. spec.single) }
    {
        let Some((token, at)) = self.next(at) else {
            return Err(Stop::Fault);
        };
        let Some(form) = simple(token) else {
            return Err(Stop::Fault);
        };
        Ok((self.node(form)?, 1, at))
    }

    // An expression of a level, of which the parts nest up to a depth.
    #[cycle(expr)]
    #[tactic(auto, unfolding(crate::specs::Expressions::expression))]
    pub(crate) fn phrase(&self, level: Level, at: usize, depth: u32) -> Read<Expr<Plain>>
        ensures { Reads self.now.tokens.now at result (λ n. spec.expression n depth level) }
    {
        if depth == 0 {
            return Err(Stop::Fault);
        }
        self.level(level, at, depth - 1)
    }

    // An expression of a level, of which the parts nest below it.
    #[cycle(expr)]
    #[tactic(auto, unfolding(crate::specs::Expressions::phrase))]
    fn level(&self, level: Level, at: usize, parts: u32) -> Read<Expr<Plain>>
        ensures { Reads self.now.tokens.now at result (λ n. spec.phrase n (spec.expression n parts) level) }
    {
        match level {
            Level::Atom => self.atom(at, parts),
            Level::App => self.application(at, parts),
            Level::Expr if self.is(at, Fixed::KwIf) => self.conditional(at, parts),
            level => {
                let (first, height, at) = self.operand(at, parts)?;
                self.climb(level, Level::Unary, first, height, at, parts)
            }
        }
    }

    // `if c then a else b`
    #[cycle(expr)]
    #[tactic(auto, unfolding(crate::specs::Expressions::conditional))]
    fn conditional(&self, at: usize, parts: u32) -> Read<Expr<Plain>>
        ensures { Reads self.now.tokens.now at result (λ n. spec.conditional n (spec.expression n parts)) }
    {
        let at = self.word(at, Fixed::KwIf)?;
        let (condition, first, at) = self.phrase(Level::Expr, at, parts)?;
        let at = self.word(at, Fixed::KwThen)?;
        let (yes, second, at) = self.phrase(Level::Expr, at, parts)?;
        let at = self.word(at, Fixed::KwElse)?;
        let (no, third, at) = self.phrase(Level::Expr, at, parts)?;
        let height = taller(first.max(second.max(third)))?;
        let chosen = self.chosen(condition, yes, no)?;
        Ok((chosen, height, at))
    }

    // What operators stand between: operators before their operand, and applications.
    #[cycle(expr)]
    #[tactic(auto, unfolding(crate::specs::Expressions::operand))]
    fn operand(&self, at: usize, parts: u32) -> Read<Expr<Plain>>
        ensures { Reads self.now.tokens.now at result (λ n. spec.operand n (spec.expression n parts)) }
    {
        if self.is(at, Fixed::Minus) {
            let at = self.word(at, Fixed::Minus)?;
            let (inner, height, at) = self.phrase(Level::Unary, at, parts)?;
            let height = taller(height)?;
            Ok((self.one(Op::Neg, inner)?, height, at))
        } else if self.is(at, Fixed::KwNot) {
            let at = self.word(at, Fixed::KwNot)?;
            let (inner, height, at) = self.phrase(Level::Unary, at, parts)?;
            let height = taller(height)?;
            Ok((self.one(Op::Not, inner)?, height, at))
        } else if self.is(at, Fixed::KwPre) {
            let at = self.word(at, Fixed::KwPre)?;
            let (inner, height, at) = self.phrase(Level::Unary, at, parts)?;
            let height = taller(height)?;
            Ok((self.node(Form::Pre(inner))?, height, at))
        } else {
            self.application(at, parts)
        }
    }

    // Calls, merges, operators that are words before their operands, and atoms.
    #[cycle(expr)]
    #[tactic(auto, unfolding(crate::specs::Expressions::application))]
    fn application(&self, at: usize, parts: u32) -> Read<Expr<Plain>>
        ensures { Reads self.now.tokens.now at result (λ n. spec.application n (spec.expression n parts)) }
    {
        match self.next(at) {
            Some((Token::Prefix(op), at)) => self.prefixed(op, at, parts),
            Some((Token::Id(_), _)) => self.named(at, parts),
            Some((Token::Fixed(word), next)) => {
                if word == Fixed::KwRun {
                    self.named(at, parts)
                } else if word == Fixed::KwMerge {
                    let (name, at) = self.name(next)?;
                    self.merge(name, at, parts)
                } else {
                    self.atom(at, parts)
                }
            }
            Some(_) => self.atom(at, parts),
            None => Err(Stop::Fault),
        }
    }

    // The operands of an operator that is a word before them.
    #[cycle(expr)]
    #[tactic(auto, unfolding(crate::specs::Expressions::prefixed))]
    fn prefixed(&self, op: Op, at: usize, parts: u32) -> Read<Expr<Plain>>
        ensures { Reads self.now.tokens.now at result (λ n. spec.prefixed n (spec.expression n parts) op) }
    {
        let count = operands(op);
        let (args, height, at) = self.arguments(count, at, parts)?;
        if args.len() == count {
            let height = taller(height)?;
            Ok((self.node(Form::Op(op, args))?, height, at))
        } else {
            Err(Stop::Fault)
        }
    }

    // A call, or a name alone.
    #[cycle(expr)]
    #[tactic(auto, unfolding(crate::specs::Expressions::named))]
    fn named(&self, at: usize, parts: u32) -> Read<Expr<Plain>>
        ensures { Reads self.now.tokens.now at result (λ n. spec.named n (spec.expression n parts)) }
    {
        let ((run, (name, args)), height, at) = self.call(at, parts)?;
        let made = self.applied(run, name, args)?;
        let height = taller(height)?;
        Ok((made, height, at))
    }

    // `run` or not, a name, and atoms.
    #[cycle(expr)]
    #[tactic(auto, unfolding(crate::specs::Expressions::call))]
    fn call(&self, at: usize, parts: u32) -> Read<(bool, (Name, List<Expr<Plain>>))>
        ensures { Reads self.now.tokens.now at result (λ n. spec.call n (spec.expression n parts)) }
    {
        if self.is(at, Fixed::KwRun) {
            let at = self.word(at, Fixed::KwRun)?;
            let (name, at) = self.name(at)?;
            let (args, height, at) = self.arguments(self.tokens.len(), at, parts)?;
            Ok(((true, (name, args)), height, at))
        } else {
            let (name, at) = self.name(at)?;
            let (args, height, at) = self.arguments(self.tokens.len(), at, parts)?;
            Ok(((false, (name, args)), height, at))
        }
    }

    // Up to so many atoms.
    #[cycle(expr)]
    #[tactic(auto, unfolding(crate::specs::Expressions::arguments))]
    fn arguments(&self, limit: usize, at: usize, parts: u32) -> Read<List<Expr<Plain>>>
        ensures { Reads self.now.tokens.now at result (λ n. spec.arguments n (spec.expression n parts) limit) }
    {
        let mut args = List::new(self.alloc);
        let mut highest = 0;
        let mut at = at;
        'turns: for turn in 0..limit {
            if !self.begins_atom(at) {
                break 'turns;
            }
            let (arg, height, next) = self.phrase(Level::Atom, at, parts)?;
            args.push(arg)?;
            highest = highest.max(height);
            at = next;
        }
        Ok((args, highest, at))
    }

    // What stands behind `merge c`: branches, or two operands that do not begin as one.
    #[cycle(expr)]
    #[tactic(auto, unfolding(crate::specs::Expressions::merge))]
    fn merge(&self, name: Name, at: usize, parts: u32) -> Read<Expr<Plain>>
        ensures { Reads self.now.tokens.now at result (λ n. spec.merge n (spec.expression n parts) name) }
    {
        if self.begins_branch(at) {
            let (branches, height, at) = self.branches(at, parts)?;
            let height = taller(height)?;
            return Ok((self.node(Form::Merge(name, branches))?, height, at));
        }
        let (yes, first, at) = self.phrase(Level::Atom, at, parts)?;
        if self.begins_branch(at) {
            return Err(Stop::Fault);
        }
        let (no, second, at) = self.phrase(Level::Atom, at, parts)?;
        let height = taller(first.max(second))?;
        Ok((self.merged(name, yes, no)?, height, at))
    }

    // The branches of a merge.
    #[cycle(expr)]
    #[tactic(auto, unfolding(crate::specs::Expressions::branches))]
    fn branches(&self, at: usize, parts: u32) -> Read<List<(Case, Expr<Plain>)>>
        ensures { Reads self.now.tokens.now at result (λ n. spec.branches n (spec.expression n parts)) }
    {
        let (first, height, next) = self.branch(at, parts)?;
        let mut items = List::new(self.alloc);
        items.push(first)?;
        let mut highest = height;
        let mut at = next;
        'turns: for turn in 0..self.tokens.len() {
            if !self.begins_branch(at) {
                break 'turns;
            }
            let (item, height, behind) = self.branch(at, parts)?;
            items.push(item)?;
            highest = highest.max(height);
            at = behind;
        }
        Ok((items, highest, at))
    }

    // A branch of a merge, as `(A -> e)`.
    #[cycle(expr)]
    #[tactic(auto, unfolding(crate::specs::Expressions::branch))]
    fn branch(&self, at: usize, parts: u32) -> Read<(Case, Expr<Plain>)>
        ensures { Reads self.now.tokens.now at result (λ n. spec.branch n (spec.expression n parts)) }
    {
        let at = self.word(at, Fixed::ParenLeft)?;
        let (case, at) = self.constructor(at)?;
        let at = self.word(at, Fixed::Arrow)?;
        let (inner, height, at) = self.phrase(Level::Expr, at, parts)?;
        let at = self.word(at, Fixed::ParenRight)?;
        Ok(((Case::Of(case), inner), height, at))
    }

    // A literal, a name, or what stands in parentheses.
    #[cycle(expr)]
    #[tactic(auto, unfolding(crate::specs::Expressions::atom))]
    fn atom(&self, at: usize, parts: u32) -> Read<Expr<Plain>>
        ensures { Reads self.now.tokens.now at result (λ n. spec.atom n (spec.expression n parts)) }
    {
        if self.is(at, Fixed::ParenLeft) {
            let at = self.word(at, Fixed::ParenLeft)?;
            self.group(at, parts)
        } else if self.is(at, Fixed::KwLast) {
            let at = self.word(at, Fixed::KwLast)?;
            let (name, at) = self.name(at)?;
            Ok((self.node(Form::Last(name))?, 1, at))
        } else if self.is(at, Fixed::Question) {
            let at = self.word(at, Fixed::Question)?;
            let (name, at) = self.name(at)?;
            Ok((self.node(Form::Asked(name))?, 1, at))
        } else {
            self.single(at)
        }
    }

    // What stands behind an opening parenthesis. A call is read first, since `every` may follow it.
    #[cycle(expr)]
    #[tactic(auto, unfolding(crate::specs::Expressions::group))]
    fn group(&self, at: usize, parts: u32) -> Read<Expr<Plain>>
        ensures { Reads self.now.tokens.now at result (λ n. spec.group n (spec.expression n parts)) }
    {
        if self.is(at, Fixed::ParenRight) {
            let at = self.word(at, Fixed::ParenRight)?;
            Ok((self.node(Form::Leaf(Leaf::Unit))?, 1, at))
        } else if self.begins_call(at) {
            let ((run, (name, args)), height, at) = self.call(at, parts)?;
            if self.is(at, Fixed::KwEvery) {
                return self.every(run, name, args, height, at, parts);
            }
            let made = self.applied(run, name, args)?;
            let height = taller(height)?;
            let (first, height, at) = self.climb(
                Level::Expr,
                Level::Unary,
                made,
                height,
                at,
                parts,
            )?;
            self.group_from(first, height, at, parts)
        } else {
            let (first, height, at) = self.phrase(Level::Expr, at, parts)?;
            self.group_from(first, height, at, parts)
        }
    }

    // What stands in parentheses, from its first expression on.
    #[cycle(expr)]
    #[tactic(auto, unfolding(crate::specs::Expressions::group_from))]
    fn group_from(
        &self,
        first: Expr<Plain>,
        height: u32,
        at: usize,
        parts: u32,
    ) -> Read<Expr<Plain>>
        ensures { Reads self.now.tokens.now at result (λ n. spec.group_from n (spec.expression n parts) first height) }
    {
        if self.is(at, Fixed::Comma) {
            return self.tuple(first, height, at, parts);
        }
        let at = self.word(at, Fixed::ParenRight)?;
        let height = taller(height)?;
        Ok((first, height, at))
    }

    // A tuple, from its first expression on.
    #[cycle(expr)]
    #[tactic(auto, unfolding(crate::specs::Expressions::tuple))]
    fn tuple(&self, first: Expr<Plain>, height: u32, at: usize, parts: u32) -> Read<Expr<Plain>>
        ensures { Reads self.now.tokens.now at result (λ n. spec.tuple n (spec.expression n parts) first height) }
    {
        let mut inner = List::new(self.alloc);
        inner.push(first)?;
        let mut highest = height;
        let mut at = at;
        'turns: for turn in 0..self.tokens.len() {
            if !self.is(at, Fixed::Comma) {
                break 'turns;
            }
            at = self.word(at, Fixed::Comma)?;
            let (item, height, behind) = self.phrase(Level::Expr, at, parts)?;
            inner.push(item)?;
            highest = highest.max(height);
            at = behind;
        }
        let at = self.word(at, Fixed::ParenRight)?;
        let height = taller(highest)?;
        Ok((self.node(Form::Tuple(inner))?, height, at))
    }

    // The condition of a call with `every`, behind its arguments.
    #[cycle(expr)]
    #[tactic(auto, unfolding(crate::specs::Expressions::every))]
    fn every(
        &self,
        run: bool,
        head: Name,
        args: List<Expr<Plain>>,
        height: u32,
        at: usize,
        parts: u32,
    ) -> Read<Expr<Plain>>
        ensures { Reads self.now.tokens.now at result (λ n. spec.every n (spec.expression n parts) run head args height) }
    {
        if args.len() == 0 {
            return Err(Stop::Fault);
        }
        let at = self.word(at, Fixed::KwEvery)?;
        let (condition, second, at) = self.phrase(Level::Expr, at, parts)?;
        let at = self.word(at, Fixed::ParenRight)?;
        let height = taller(height.max(second))?;
        let every = Some(condition);
        Ok((
            self.node(Form::Call {
                run,
                head,
                args,
                every,
            })?,
            height,
            at,
        ))
    }

    // The operators that follow a phrase of the level `from`, as far as they go on inside one of the level `least`: precedence climbing.
    #[cycle(expr)]
    #[tactic(auto)]
    fn climb(
        &self,
        least: Level,
        from: Level,
        first: Expr<Plain>,
        height: u32,
        at: usize,
        parts: u32,
    ) -> Read<Expr<Plain>>
        ensures { Reads self.now.tokens.now at result (λ n. spec.climb n (spec.expression n parts) n least from first height) }
    {
        let mut from = from;
        let mut made = first;
        let mut height = height;
        let mut at = at;
        'turns: for turn in 0..self.tokens.len() {
            let Some((operator, next)) = self.infix(at) else {
                break 'turns;
            };
            if !goes_on(least, from, operator) {
                break 'turns;
            }
            (made, height, at) = self.suffix(operator, made, height, next, parts)?;
            from = operator.level();
        }
        Ok((made, height, at))
    }

    // What stands right of an operator, joined to what stands left.
    #[cycle(expr)]
    #[tactic(auto, unfolding(crate::specs::Expressions::suffix))]
    fn suffix(
        &self,
        operator: Infix,
        left: Expr<Plain>,
        height: u32,
        at: usize,
        parts: u32,
    ) -> Read<Expr<Plain>>
        ensures { Reads self.now.tokens.now at result (λ n. spec.suffix n (spec.expression n parts) operator left height) }
    {
        match operator {
            Infix::Init => {
                let (right, second, at) = self.phrase(Level::Expr, at, parts)?;
                let height = taller(height.max(second))?;
                Ok((self.node(Form::Init(left, right))?, height, at))
            }
            Infix::Fby => {
                let (right, second, at) = self.phrase(Level::Delay, at, parts)?;
                let height = taller(height.max(second))?;
                Ok((self.node(Form::Fby(left, right))?, height, at))
            }
            Infix::When => {
                let ((name, case), at) = self.condition(at)?;
                let height = taller(height)?;
                Ok((self.node(Form::When(left, name, case))?, height, at))
            }
            Infix::Whenot => {
                let (name, at) = self.name(at)?;
                let height = taller(height)?;
                Ok((self.node(Form::When(left, name, Case::False))?, height, at))
            }
            Infix::Binary(level, op) => {
                let (right, second, at) = self.phrase(level.right(), at, parts)?;
                let height = taller(height.max(second))?;
                Ok((self.two(op, left, right)?, height, at))
            }
        }
    }
}
