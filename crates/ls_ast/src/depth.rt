//! How deeply a definition nests.

ghost use Rattle.std.specs.Prelude.{◌≡◌, ◌<◌, ◌^◌, map, option_map};
ghost use Rattle.ls_ast.specs.Height as spec;

use crate::tree::{
    Arm, BodyOf, Case, DefOf, Equation, Expr, Form, Guard, Handler, Pat, State, Test,
};

#[cycle(pats)]
fn highest_pat(all: &[Pat]) -> u32
    requires { spec.highest (map spec.pat_height all.now) < 2 ^ 32 }
    ensures { result ≡ spec.highest (map spec.pat_height all.now) }
{
    let mut most = 0;
    for pat in all {
        most = pat_height(pat).max(most);
    }
    most
}

#[cycle(pats)]
fn pat_height(pat: &Pat) -> u32
    requires { spec.pat_height pat.now < 2 ^ 32 }
    ensures { result ≡ spec.pat_height pat.now }
{
    match pat {
        Pat::Any | Pat::Unit | Pat::Var(_) => 1,
        Pat::Tuple(parts) => highest_pat(parts.as_slice()) + 1,
    }
}

#[cycle(expr)]
fn highest_expr<N>(all: &[Expr<N>]) -> u32
    requires { spec.highest (map spec.expr_height all.now) < 2 ^ 32 }
    ensures { result ≡ spec.highest (map spec.expr_height all.now) }
{
    let mut most = 0;
    for e in all {
        most = expr_height(e).max(most);
    }
    most
}

#[cycle(expr)]
fn highest_branch<N>(all: &[(Case, Expr<N>)]) -> u32
    requires { spec.highest_branch (map (λ c. (c.0, spec.expr_height c.1)) all.now) < 2 ^ 32 }
    ensures { result ≡ spec.highest_branch (map (λ c. (c.0, spec.expr_height c.1)) all.now) }
{
    let mut most = 0;
    for branch in all {
        most = expr_height(&branch.1).max(most);
    }
    most
}

#[cycle(expr)]
fn if_any_expr<N>(e: &Option<Expr<N>>) -> u32
    requires { spec.if_any (option_map spec.expr_height e.now) < 2 ^ 32 }
    ensures { result ≡ spec.if_any (option_map spec.expr_height e.now) }
{
    match e {
        None => 0,
        Some(e) => expr_height(e),
    }
}

#[cycle(expr)]
fn expr_height<N>(e: &Expr<N>) -> u32
    requires { spec.expr_height e.now < 2 ^ 32 }
    ensures { result ≡ spec.expr_height e.now }
{
    form_height(e.form.get())
}

#[cycle(expr)]
fn form_height<N>(form: &Form<N>) -> u32
    requires { spec.form_height form.now < 2 ^ 32 }
    ensures { result ≡ spec.form_height form.now }
{
    match form {
        Form::Leaf(_) | Form::Case(_) | Form::Var(_) | Form::Last(_) | Form::Asked(_) => 1,
        Form::Op(_, args) => highest_expr(args.as_slice()) + 1,
        Form::Tuple(parts) => highest_expr(parts.as_slice()) + 1,
        Form::Pre(e) => expr_height(e) + 1,
        Form::Fby(a, b) => expr_height(a).max(expr_height(b)) + 1,
        Form::Init(a, b) => expr_height(a).max(expr_height(b)) + 1,
        Form::When(e, _, _) => expr_height(e) + 1,
        Form::Merge(_, branches) => highest_branch(branches.as_slice()) + 1,
        Form::Call { args, every, .. } => {
            highest_expr(args.as_slice()).max(if_any_expr(every)) + 1
        }
    }
}

#[cycle(eqs)]
fn highest_eq<N>(all: &[Equation<N>]) -> u32
    requires { spec.highest (map spec.eq_height all.now) < 2 ^ 32 }
    ensures { result ≡ spec.highest (map spec.eq_height all.now) }
{
    let mut most = 0;
    for eq in all {
        most = eq_height(eq).max(most);
    }
    most
}

#[cycle(eqs)]
fn highest_arm<N>(all: &[Arm<N>]) -> u32
    requires { spec.highest (map spec.arm_height all.now) < 2 ^ 32 }
    ensures { result ≡ spec.highest (map spec.arm_height all.now) }
{
    let mut most = 0;
    for arm in all {
        most = arm_height(arm).max(most);
    }
    most
}

#[cycle(eqs)]
fn highest_test<N>(all: &[Test<N>]) -> u32
    requires { spec.highest (map spec.test_height all.now) < 2 ^ 32 }
    ensures { result ≡ spec.highest (map spec.test_height all.now) }
{
    let mut most = 0;
    for test in all {
        most = test_height(test).max(most);
    }
    most
}

#[cycle(eqs)]
fn highest_state<N>(all: &[State<N>]) -> u32
    requires { spec.highest (map spec.state_height all.now) < 2 ^ 32 }
    ensures { result ≡ spec.highest (map spec.state_height all.now) }
{
    let mut most = 0;
    for state in all {
        most = state_height(state).max(most);
    }
    most
}

#[cycle(eqs)]
fn highest_guard<N>(all: &[Guard<N>]) -> u32
    requires { spec.highest (map spec.guard_height all.now) < 2 ^ 32 }
    ensures { result ≡ spec.highest (map spec.guard_height all.now) }
{
    let mut most = 0;
    for guard in all {
        most = guard_height(guard).max(most);
    }
    most
}

#[cycle(eqs)]
fn if_any_handler<N>(handler: &Option<Handler<N>>) -> u32
    requires { spec.if_any (option_map spec.handler_height handler.now) < 2 ^ 32 }
    ensures { result ≡ spec.if_any (option_map spec.handler_height handler.now) }
{
    match handler {
        None => 0,
        Some(handler) => handler_height(handler),
    }
}

fn if_any_pat(pat: &Option<Pat>) -> u32
    requires { spec.if_any (option_map spec.pat_height pat.now) < 2 ^ 32 }
    ensures { result ≡ spec.if_any (option_map spec.pat_height pat.now) }
{
    match pat {
        None => 0,
        Some(pat) => pat_height(pat),
    }
}

#[cycle(eqs)]
fn arm_height<N>(arm: &Arm<N>) -> u32
    requires { spec.arm_height arm.now < 2 ^ 32 }
    ensures { result ≡ spec.arm_height arm.now }
{
    handler_height(&arm.handler)
}

#[cycle(eqs)]
fn test_height<N>(test: &Test<N>) -> u32
    requires { spec.test_height test.now < 2 ^ 32 }
    ensures { result ≡ spec.test_height test.now }
{
    if_any_pat(&test.pat).max(handler_height(&test.handler))
}

#[cycle(eqs)]
fn state_height<N>(state: &State<N>) -> u32
    requires { spec.state_height state.now < 2 ^ 32 }
    ensures { result ≡ spec.state_height state.now }
{
    let guards = highest_guard(state.strong.as_slice()).max(highest_guard(state.weak.as_slice()));
    handler_height(&state.handler).max(guards)
}

#[cycle(eqs)]
fn guard_height<N>(guard: &Guard<N>) -> u32
    requires { spec.guard_height guard.now < 2 ^ 32 }
    ensures { result ≡ spec.guard_height guard.now }
{
    highest_eq(guard.eqs.as_slice()).max(expr_height(&guard.cond)) + 1
}

#[cycle(eqs)]
fn handler_height<N>(handler: &Handler<N>) -> u32
    requires { spec.handler_height handler.now < 2 ^ 32 }
    ensures { result ≡ spec.handler_height handler.now }
{
    highest_eq(handler.locals.as_slice()).max(highest_eq(handler.eqs.as_slice())) + 1
}

#[cycle(eqs)]
fn eq_height<N>(eq: &Equation<N>) -> u32
    requires { spec.eq_height eq.now < 2 ^ 32 }
    ensures { result ≡ spec.eq_height eq.now }
{
    match eq {
        Equation::Plain(pat, e) => pat_height(pat).max(expr_height(e)) + 1,
        Equation::Clock(_, e) => expr_height(e) + 1,
        Equation::Initial(_, e) => expr_height(e) + 1,
        Equation::Emit(_, e) => expr_height(e) + 1,
        Equation::Reset(eqs, e) => highest_eq(eqs.as_slice()).max(expr_height(e)) + 1,
        Equation::Match(e, arms) => expr_height(e).max(highest_arm(arms.as_slice())) + 1,
        Equation::Present(tests, other) => {
            highest_test(tests.as_slice()).max(if_any_handler(other)) + 1
        }
        Equation::Automaton(states) => highest_state(states.as_slice()) + 1,
    }
}

fn body_height<N>(body: &BodyOf<N>) -> u32
    requires { spec.body_height body.now < 2 ^ 32 }
    ensures { result ≡ spec.body_height body.now }
{
    expr_height(&body.result).max(highest_eq(body.eqs.as_slice())) + 1
}

/// How deeply a definition nests. What has no parts, as a variable or a type definition, has
/// height 1; every other expression, pattern, equation, handler, guard, body and definition has 1
/// more than its highest part. A tree no longer has the parentheses of its text, so the text may
/// be higher.
pub fn height<N>(def: &DefOf<N>) -> u32
    requires { spec.height def.now < 2 ^ 32 }
    ensures { result ≡ spec.height def.now }
{
    match def {
        DefOf::Cases { .. } => 1,
        DefOf::Let { params, body, .. } => {
            highest_pat(params.as_slice()).max(body_height(body)) + 1
        }
    }
}
