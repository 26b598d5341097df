ghost use Rattle.std.specs.Prelude.{◌≡◌};
ghost use Rattle.ls_ast.specs.declared.tree.Equation.{out-Equation};
ghost use Rattle.ls_ast.specs.declared.tree.Plain.{Plain};
ghost use Rattle.lsc_cli.specs.SumForm as spec;

use ls_ast::{BodyOf, Def, DefOf, Equation, Expr, Form, Pat, Plain};
use ls_base::{List, Name};
use ls_ops::Op;
use ls_value::Leaf;
use sum_model::{RunningSum, Stream};

/// `K fby Y`
#[derive(Clone, Copy)]
struct Delay {
    first: i64,
    delayed: Name,
}

/// `X + (K fby Y)`
#[derive(Clone, Copy)]
struct Addition {
    added: Name,
    delay: Delay,
}

/// A node of the one form that is run.
#[derive(Clone, Copy)]
pub(crate) struct SumNode {
    pub name: Name,
    pub body: RunningSum,
}

fn variable(e: &Expr<Plain>) -> Option<Name>
    ensures { result ≡ spec.variable_of e.now }
{
    match e.form.get() {
        Form::Var(name) => Some(*name),
        _ => None,
    }
}

fn integer(e: &Expr<Plain>) -> Option<i64>
    ensures { result ≡ spec.integer_of e.now }
{
    match e.form.get() {
        Form::Leaf(Leaf::Int(value)) => Some(*value),
        _ => None,
    }
}

fn delay_of(e: &Expr<Plain>) -> Option<Delay>
    ensures { result ≡ spec.delay_of e.now }
{
    match e.form.get() {
        Form::Fby(a, b) => {
            let first = integer(a)?;
            let delayed = variable(b)?;
            Some(Delay { first, delayed })
        }
        _ => None,
    }
}

fn addition_of(e: &Expr<Plain>) -> Option<Addition>
    ensures { result ≡ spec.addition_of e.now }
{
    match e.form.get() {
        Form::Op(Op::Add, operands) => addition_of_two(operands.as_slice()),
        _ => None,
    }
}

fn addition_of_two(operands: &[Expr<Plain>]) -> Option<Addition>
    ensures { result ≡ spec.addition_of_two operands.now }
{
    match operands {
        [a, b] => {
            let added = variable(a)?;
            let delay = delay_of(b)?;
            Some(Addition { added, delay })
        }
        _ => None,
    }
}

fn name_of(pat: &Pat) -> Option<Name>
    ensures { result ≡ spec.name_of pat.now }
{
    match pat {
        Pat::Var(name) => Some(*name),
        _ => None,
    }
}

/// Which of the two streams a name means.
fn stream_of(param: Name, sum: Name, name: Name) -> Option<Stream>
    ensures { result ≡ spec.stream_of param sum name }
{
    if name.0 == param.0 {
        Some(Stream::Param)
    } else if name.0 == sum.0 {
        Some(Stream::Sum)
    } else {
        None
    }
}

/// The body where the names are as they are to be.
fn body_of(param: Name, sum: Name, shown: Name, addition: Addition) -> Option<RunningSum>
    ensures { result ≡ spec.body_of param sum shown addition }
{
    if sum.0 == param.0 || addition.added.0 != param.0 {
        return None;
    }
    let delayed = stream_of(param, sum, addition.delay.delayed)?;
    let result_stream = stream_of(param, sum, shown)?;
    Some(RunningSum {
        first: addition.delay.first,
        delayed,
        result: result_stream,
    })
}

/// `S = X + (K fby Y)`, after the parameter and the result.
fn only_equation(param: Name, shown: Name, eqs: &[Equation<Plain>]) -> Option<RunningSum>
    ensures { result ≡ spec.only_equation param shown eqs.now }
{
    match eqs {
        [equation] => equation_of(param, shown, equation),
        _ => None,
    }
}

fn equation_of(param: Name, shown: Name, equation: &Equation<Plain>) -> Option<RunningSum>
    ensures { result ≡ spec.equation_at param shown (out-Equation Plain equation.now) }
{
    match equation {
        Equation::Plain(pat, e) => {
            let sum = name_of(pat)?;
            let addition = addition_of(e)?;
            body_of(param, sum, shown, addition)
        }
        _ => None,
    }
}

fn only_param(params: &[Pat]) -> Option<Name>
    ensures { result ≡ spec.only_param params.now }
{
    match params {
        [pat] => name_of(pat),
        _ => None,
    }
}

fn node_of(name: Name, params: &List<Pat>, body: &BodyOf<Plain>) -> Option<SumNode>
    ensures { result ≡ spec.node_of name params.now body.now }
{
    let param = only_param(params.as_slice())?;
    let shown = variable(&body.result)?;
    let sum = only_equation(param, shown, body.eqs.as_slice())?;
    Some(SumNode { name, body: sum })
}

fn definition_of(def: &Def) -> Option<SumNode>
    ensures { result ≡ spec.definition_of def.now }
{
    match def {
        DefOf::Let {
            node: true,
            name,
            params,
            body,
            ..
        } => node_of(*name, params, body),
        _ => None,
    }
}

/// The node, where the file is one definition of the form.
pub(crate) fn sum_of(defs: &[Def]) -> Option<SumNode>
    ensures { result ≡ spec.file_of defs.now }
{
    match defs {
        [def] => definition_of(def),
        _ => None,
    }
}
