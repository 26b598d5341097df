//! One tree of each kind, its height, and its copy.

ghost use Rattle.std.specs.Prelude.{◌≡◌, ◌+◌, max, map, IfOk};
ghost use Rattle.ls_ast.specs.Height as spec;

use ls_ast::{
    Arm, BodyOf, Case, Def, DefOf, Equation, Expr, File, FileOf, Form, Guard, Handler, Mark, Pat,
    Plain, State, Test, height,
};
use ls_base::{Boxed, Line, List, Name, Names, NoMemory, NoteCopy};
use ls_ops::Op;
use ls_value::Leaf;
use std::alloc::Global;

fn expr(alloc: Global, form: Form<Plain>) -> Result<Expr<Plain>, NoMemory>
    ensures { IfOk result (λ e. spec.expr_height e ≡ spec.form_height form) }
{
    Ok(Expr {
        note: Plain,
        form: Boxed::new(alloc, form)?,
    })
}

fn var(alloc: Global, name: u32) -> Result<Expr<Plain>, NoMemory>
    ensures { IfOk result (λ e. spec.expr_height e ≡ 1) }
{
    expr(alloc, Form::Var(Name(name)))
}

// `x fby pre y`
fn delay(alloc: Global) -> Result<Expr<Plain>, NoMemory>
    ensures { IfOk result (λ e. spec.expr_height e ≡ 3) }
{
    let before = expr(alloc, Form::Pre(var(alloc, 1)?))?;
    expr(alloc, Form::Fby(var(alloc, 0)?, before))
}

// `not c`
fn negation(alloc: Global) -> Result<Expr<Plain>, NoMemory>
    ensures { IfOk result (λ e. spec.expr_height e ≡ 2) }
{
    let mut operands = List::new(alloc);
    operands.push(var(alloc, 3)?)?;
    expr(alloc, Form::Op(Op::Not, operands))
}

// `run g every not c`
fn call(alloc: Global) -> Result<Expr<Plain>, NoMemory> {
    let every = Some(negation(alloc)?);
    let form = Form::Call {
        run: true,
        head: Name(2),
        args: List::new(alloc),
        every,
    };
    expr(alloc, form)
}

// `x fby pre y -> not c`
fn result(alloc: Global) -> Result<Expr<Plain>, NoMemory>
    ensures { IfOk result (λ e. spec.expr_height e ≡ 4) }
{
    expr(alloc, Form::Init(delay(alloc)?, negation(alloc)?))
}

// `let node f x = x fby pre y -> not c where ..`
fn definition(alloc: Global, eqs: List<Equation<Plain>>) -> Result<Def, NoMemory>
    ensures { IfOk result (λ d. spec.height d ≡ max 4 (spec.highest (map spec.eq_height eqs)) + 2) }
{
    let mut params = List::new(alloc);
    params.push(Pat::Var(Name(0)))?;
    let mut marks = List::new(alloc);
    marks.push(Mark::Clock)?;
    let mut notes = List::new(alloc);
    notes.push(Plain)?;
    let body = BodyOf {
        result: result(alloc)?,
        eqs,
    };
    Ok(DefOf::Let {
        line: Line(4),
        node: true,
        name: Name(5),
        params,
        marks,
        notes,
        body,
    })
}

// `do eq done`
fn handler(alloc: Global, eq: Equation<Plain>) -> Result<Handler<Plain>, NoMemory> {
    let mut eqs = List::new(alloc);
    eqs.push(eq)?;
    Ok(Handler {
        locals: List::new(alloc),
        eqs,
    })
}

// `match x with A -> do emit s = run g every not c done end`
fn selection(alloc: Global) -> Result<Equation<Plain>, NoMemory> {
    let emitted = Equation::Emit(Name(7), call(alloc)?);
    let arm = Arm {
        case: Some(Name(6)),
        handler: handler(alloc, emitted)?,
    };
    let e = var(alloc, 0)?;
    let mut arms = List::new(alloc);
    arms.push(arm)?;
    Ok(Equation::Match(e, arms))
}

// `present s(()) -> do clock c = 5 done else do last y = A done end`
fn presence(alloc: Global) -> Result<Equation<Plain>, NoMemory> {
    let initial = Equation::Initial(Name(1), expr(alloc, Form::Case(Name(6)))?);
    let other = Some(handler(alloc, initial)?);
    let clock = Equation::Clock(Name(3), expr(alloc, Form::Leaf(Leaf::Int(5)))?);
    let test = Test {
        signal: Name(7),
        pat: Some(Pat::Unit),
        handler: handler(alloc, clock)?,
    };
    let mut tests = List::new(alloc);
    tests.push(test)?;
    Ok(Equation::Present(tests, other))
}

// `merge c (true -> ?s) when A(c)`
fn merged(alloc: Global) -> Result<Expr<Plain>, NoMemory> {
    let mut branches = List::new(alloc);
    branches.push((Case::True, expr(alloc, Form::Asked(Name(7)))?))?;
    let merge = expr(alloc, Form::Merge(Name(3), branches))?;
    expr(alloc, Form::When(merge, Name(3), Case::Of(Name(6))))
}

// `reset y = merge c (true -> ?s) when A(c) every last y`
fn reset(alloc: Global) -> Result<Equation<Plain>, NoMemory> {
    let eq = Equation::Plain(Pat::Var(Name(1)), merged(alloc)?);
    let e = expr(alloc, Form::Last(Name(1)))?;
    let mut eqs = List::new(alloc);
    eqs.push(eq)?;
    Ok(Equation::Reset(eqs, e))
}

// `S -> do reset .. done unless x then S until not c continue S`
fn state(alloc: Global) -> Result<State<Plain>, NoMemory> {
    let handler = handler(alloc, reset(alloc)?)?;
    let mut strong = List::new(alloc);
    strong.push(guard(alloc, true, var(alloc, 0)?))?;
    let mut weak = List::new(alloc);
    weak.push(guard(alloc, false, negation(alloc)?))?;
    Ok(State {
        name: Name(8),
        handler,
        strong,
        weak,
    })
}

fn guard(alloc: Global, restart: bool, cond: Expr<Plain>) -> Guard<Plain> {
    Guard {
        eqs: List::new(alloc),
        cond,
        restart,
        target: Name(8),
    }
}

// `type t = A`
fn enumeration(alloc: Global) -> Result<Def, NoMemory>
    ensures { IfOk result (λ d. spec.height d ≡ 1) }
{
    let mut cases = List::new(alloc);
    cases.push(Name(6))?;
    Ok(DefOf::Cases {
        line: Line(1),
        name: Name(9),
        cases,
    })
}

/// The heights of `type t = A`, of that definition without an equation, and with one that is as
/// high as its result.
fn heights(alloc: Global) -> Result<String, NoMemory> {
    let cases = height(&enumeration(alloc)?);
    let bare = height(&definition(alloc, List::new(alloc))?);
    let mut eqs = List::new(alloc);
    eqs.push(Equation::Plain(Pat::Var(Name(1)), result(alloc)?))?;
    let one = height(&definition(alloc, eqs)?);
    Ok(format!(in alloc; "{cases} {bare} {one}")?)
}

// A match, a present and an automaton.
fn blocks(alloc: Global) -> Result<List<Equation<Plain>>, NoMemory> {
    let mut states = List::new(alloc);
    states.push(state(alloc)?)?;
    let mut eqs = List::new(alloc);
    eqs.push(Equation::Automaton(states))?;
    eqs.push(selection(alloc)?)?;
    eqs.push(presence(alloc)?)?;
    Ok(eqs)
}

fn sample(alloc: Global) -> Result<File, NoMemory> {
    let mut names = Names::new(alloc);
    names.add("x")?;
    let mut defs = List::new(alloc);
    defs.push(enumeration(alloc)?)?;
    defs.push(definition(alloc, blocks(alloc)?)?)?;
    Ok(FileOf { defs, names })
}

/// Whether a copy of a file is shown as the file is, and how it spells two names.
fn copied(alloc: Global) -> Result<String, NoMemory> {
    let file = sample(alloc)?;
    let twin = file.copy(alloc)?;
    let text = format!(in alloc; "{:?}", file.defs)?;
    let again = format!(in alloc; "{:?}", twin.defs)?;
    let same = text.as_str() == again.as_str();
    let (first, second) = (twin.names.spell(Name(0)), twin.names.spell(Name(1)));
    Ok(format!(in alloc; "{same} {first:?} {second:?}")?)
}

/// The answer to a question about these trees.
pub fn answer(alloc: Global, of: &str) -> Result<String, NoMemory> {
    match of {
        "heights" => heights(alloc),
        "copy" => copied(alloc),
        _ => Ok(String::from_str(alloc, "no such question")?),
    }
}
