//! Copies of trees.

ghost use Rattle.std.specs.Prelude.{◌≡◌, IfOk};

use crate::tree::{
    Arm, BodyOf, Case, DefOf, Equation, Expr, FileOf, Form, Guard, Handler, Mark, Pat, Plain,
    State, Test,
};
use ls_base::{Boxed, List, NoMemory, NoteCopy};
use std::alloc::Global;

impl NoteCopy for Mark {
    fn copy(&self, _alloc: Global) -> Result<Mark, NoMemory> {
        Ok(*self)
    }
}

impl NoteCopy for Case {
    fn copy(&self, _alloc: Global) -> Result<Case, NoMemory> {
        Ok(*self)
    }
}

impl NoteCopy for Plain {
    fn copy(&self, _alloc: Global) -> Result<Plain, NoMemory> {
        Ok(Plain)
    }
}

#[cycle(pats)]
fn copy_pats(alloc: Global, all: &[Pat]) -> Result<List<Pat>, NoMemory>
    ensures { IfOk result (λ r. r ≡ all.now) }
{
    let mut done = List::new(alloc);
    for pat in all {
        done.push(pat.copy(alloc)?)?;
    }
    Ok(done)
}

impl NoteCopy for Pat {
    #[cycle(pats)]
    fn copy(&self, alloc: Global) -> Result<Pat, NoMemory> {
        match self {
            Pat::Any => Ok(Pat::Any),
            Pat::Unit => Ok(Pat::Unit),
            Pat::Var(name) => Ok(Pat::Var(*name)),
            Pat::Tuple(parts) => Ok(Pat::Tuple(copy_pats(alloc, parts.as_slice())?)),
        }
    }
}

#[cycle(expr)]
fn copy_exprs<N: NoteCopy>(alloc: Global, all: &[Expr<N>]) -> Result<List<Expr<N>>, NoMemory>
    ensures { IfOk result (λ r. r ≡ all.now) }
{
    let mut done = List::new(alloc);
    for e in all {
        done.push(e.copy(alloc)?)?;
    }
    Ok(done)
}

#[cycle(expr)]
fn copy_choices<N: NoteCopy>(
    alloc: Global,
    all: &[(Case, Expr<N>)],
) -> Result<List<(Case, Expr<N>)>, NoMemory>
    ensures { IfOk result (λ r. r ≡ all.now) }
{
    let mut done = List::new(alloc);
    for choice in all {
        done.push((choice.0, choice.1.copy(alloc)?))?;
    }
    Ok(done)
}

#[cycle(expr)]
fn copy_maybe<N: NoteCopy>(alloc: Global, e: &Option<Expr<N>>) -> Result<Option<Expr<N>>, NoMemory>
    ensures { IfOk result (λ r. r ≡ e.now) }
{
    match e {
        None => Ok(None),
        Some(e) => Ok(Some(e.copy(alloc)?)),
    }
}

impl<N: NoteCopy> NoteCopy for Expr<N> {
    #[cycle(expr)]
    fn copy(&self, alloc: Global) -> Result<Expr<N>, NoMemory> {
        Ok(Expr {
            note: self.note.copy(alloc)?,
            form: Boxed::new(alloc, self.form.get().copy(alloc)?)?,
        })
    }
}

impl<N: NoteCopy> NoteCopy for Form<N> {
    #[cycle(expr)]
    fn copy(&self, alloc: Global) -> Result<Form<N>, NoMemory> {
        match self {
            Form::Leaf(leaf) => Ok(Form::Leaf(*leaf)),
            Form::Case(name) => Ok(Form::Case(*name)),
            Form::Var(name) => Ok(Form::Var(*name)),
            Form::Last(name) => Ok(Form::Last(*name)),
            Form::Asked(name) => Ok(Form::Asked(*name)),
            Form::Op(op, args) => Ok(Form::Op(*op, copy_exprs(alloc, args.as_slice())?)),
            Form::Tuple(parts) => Ok(Form::Tuple(copy_exprs(alloc, parts.as_slice())?)),
            Form::Pre(e) => Ok(Form::Pre(e.copy(alloc)?)),
            Form::Fby(a, b) => Ok(Form::Fby(a.copy(alloc)?, b.copy(alloc)?)),
            Form::Init(a, b) => Ok(Form::Init(a.copy(alloc)?, b.copy(alloc)?)),
            Form::When(e, name, case) => Ok(Form::When(e.copy(alloc)?, *name, *case)),
            Form::Merge(name, choices) => {
                Ok(Form::Merge(*name, copy_choices(alloc, choices.as_slice())?))
            }
            Form::Call {
                run,
                head,
                args,
                every,
            } => Ok(Form::Call {
                run: *run,
                head: *head,
                args: copy_exprs(alloc, args.as_slice())?,
                every: copy_maybe(alloc, every)?,
            }),
        }
    }
}

#[cycle(eqs)]
fn copy_eqs<N: NoteCopy>(alloc: Global, all: &[Equation<N>]) -> Result<List<Equation<N>>, NoMemory>
    ensures { IfOk result (λ r. r ≡ all.now) }
{
    let mut done = List::new(alloc);
    for eq in all {
        done.push(eq.copy(alloc)?)?;
    }
    Ok(done)
}

#[cycle(eqs)]
fn copy_arms<N: NoteCopy>(alloc: Global, all: &[Arm<N>]) -> Result<List<Arm<N>>, NoMemory>
    ensures { IfOk result (λ r. r ≡ all.now) }
{
    let mut done = List::new(alloc);
    for arm in all {
        done.push(arm.copy(alloc)?)?;
    }
    Ok(done)
}

#[cycle(eqs)]
fn copy_tests<N: NoteCopy>(alloc: Global, all: &[Test<N>]) -> Result<List<Test<N>>, NoMemory>
    ensures { IfOk result (λ r. r ≡ all.now) }
{
    let mut done = List::new(alloc);
    for test in all {
        done.push(test.copy(alloc)?)?;
    }
    Ok(done)
}

#[cycle(eqs)]
fn copy_states<N: NoteCopy>(alloc: Global, all: &[State<N>]) -> Result<List<State<N>>, NoMemory>
    ensures { IfOk result (λ r. r ≡ all.now) }
{
    let mut done = List::new(alloc);
    for state in all {
        done.push(state.copy(alloc)?)?;
    }
    Ok(done)
}

#[cycle(eqs)]
fn copy_guards<N: NoteCopy>(alloc: Global, all: &[Guard<N>]) -> Result<List<Guard<N>>, NoMemory>
    ensures { IfOk result (λ r. r ≡ all.now) }
{
    let mut done = List::new(alloc);
    for guard in all {
        done.push(guard.copy(alloc)?)?;
    }
    Ok(done)
}

#[cycle(eqs)]
fn copy_else<N: NoteCopy>(
    alloc: Global,
    handler: &Option<Handler<N>>,
) -> Result<Option<Handler<N>>, NoMemory>
    ensures { IfOk result (λ r. r ≡ handler.now) }
{
    match handler {
        None => Ok(None),
        Some(handler) => Ok(Some(handler.copy(alloc)?)),
    }
}

impl<N: NoteCopy> NoteCopy for Handler<N> {
    #[cycle(eqs)]
    fn copy(&self, alloc: Global) -> Result<Handler<N>, NoMemory> {
        Ok(Handler {
            locals: copy_eqs(alloc, self.locals.as_slice())?,
            eqs: copy_eqs(alloc, self.eqs.as_slice())?,
        })
    }
}

impl<N: NoteCopy> NoteCopy for Arm<N> {
    #[cycle(eqs)]
    fn copy(&self, alloc: Global) -> Result<Arm<N>, NoMemory> {
        Ok(Arm {
            case: self.case,
            handler: self.handler.copy(alloc)?,
        })
    }
}

impl<N: NoteCopy> NoteCopy for Test<N> {
    #[cycle(eqs)]
    fn copy(&self, alloc: Global) -> Result<Test<N>, NoMemory> {
        Ok(Test {
            signal: self.signal,
            pat: self.pat.copy(alloc)?,
            handler: self.handler.copy(alloc)?,
        })
    }
}

impl<N: NoteCopy> NoteCopy for State<N> {
    #[cycle(eqs)]
    fn copy(&self, alloc: Global) -> Result<State<N>, NoMemory> {
        Ok(State {
            name: self.name,
            handler: self.handler.copy(alloc)?,
            strong: copy_guards(alloc, self.strong.as_slice())?,
            weak: copy_guards(alloc, self.weak.as_slice())?,
        })
    }
}

impl<N: NoteCopy> NoteCopy for Guard<N> {
    #[cycle(eqs)]
    fn copy(&self, alloc: Global) -> Result<Guard<N>, NoMemory> {
        Ok(Guard {
            eqs: copy_eqs(alloc, self.eqs.as_slice())?,
            cond: self.cond.copy(alloc)?,
            restart: self.restart,
            target: self.target,
        })
    }
}

impl<N: NoteCopy> NoteCopy for Equation<N> {
    #[cycle(eqs)]
    fn copy(&self, alloc: Global) -> Result<Equation<N>, NoMemory> {
        match self {
            Equation::Plain(pat, e) => Ok(Equation::Plain(pat.copy(alloc)?, e.copy(alloc)?)),
            Equation::Clock(name, e) => Ok(Equation::Clock(*name, e.copy(alloc)?)),
            Equation::Initial(name, e) => Ok(Equation::Initial(*name, e.copy(alloc)?)),
            Equation::Emit(name, e) => Ok(Equation::Emit(*name, e.copy(alloc)?)),
            Equation::Reset(eqs, e) => {
                Ok(Equation::Reset(copy_eqs(alloc, eqs.as_slice())?, e.copy(alloc)?))
            }
            Equation::Match(e, arms) => {
                Ok(Equation::Match(e.copy(alloc)?, copy_arms(alloc, arms.as_slice())?))
            }
            Equation::Present(tests, other) => Ok(Equation::Present(
                copy_tests(alloc, tests.as_slice())?,
                copy_else(alloc, other)?,
            )),
            Equation::Automaton(states) => {
                Ok(Equation::Automaton(copy_states(alloc, states.as_slice())?))
            }
        }
    }
}

impl<N: NoteCopy> NoteCopy for BodyOf<N> {
    fn copy(&self, alloc: Global) -> Result<BodyOf<N>, NoMemory> {
        Ok(BodyOf {
            result: self.result.copy(alloc)?,
            eqs: self.eqs.copy(alloc)?,
        })
    }
}

impl<N: NoteCopy> NoteCopy for DefOf<N> {
    fn copy(&self, alloc: Global) -> Result<DefOf<N>, NoMemory> {
        match self {
            DefOf::Cases { line, name, cases } => Ok(DefOf::Cases {
                line: *line,
                name: *name,
                cases: cases.copy(alloc)?,
            }),
            DefOf::Let {
                line,
                node,
                name,
                params,
                marks,
                notes,
                body,
            } => Ok(DefOf::Let {
                line: *line,
                node: *node,
                name: *name,
                params: params.copy(alloc)?,
                marks: marks.copy(alloc)?,
                notes: notes.copy(alloc)?,
                body: body.copy(alloc)?,
            }),
        }
    }
}

impl<N: NoteCopy> NoteCopy for FileOf<N> {
    fn copy(&self, alloc: Global) -> Result<FileOf<N>, NoMemory> {
        Ok(FileOf {
            defs: self.defs.copy(alloc)?,
            names: self.names.copy(alloc)?,
        })
    }
}
