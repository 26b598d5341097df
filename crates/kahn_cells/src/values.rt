//! Values: their parts, the case that one names, and what a pattern gives to a name.

ghost use Rattle.std.specs.Prelude.{◌≡◌, ◌++◌, IfOk, OnOk, map};
ghost use Rattle.kahn_model.specs.Values as spec;
ghost use Rattle.kahn_model.specs.declared.cell.Value.TheOpen.{Value-F};
ghost use Rattle.kahn_cells.specs.Parts as own;
ghost use Rattle.ls_ops.specs.declared.kinds.Op.{Op};
ghost use Rattle.ls_places.specs.Patterns.{joined};

use kahn_model::Value;
use ls_ast::Pat;
use ls_base::{List, NoMemory};
use ls_ops::{Alarm, Op, evaluate};
use ls_value::Leaf;
use std::alloc::Global;

/// The missing value.
pub fn nil() -> Value
    ensures { result ≡ spec.nil }
{
    Value::Leaf(Leaf::Nil)
}

#[cycle(copy)]
fn copy_values(alloc: Global, all: &[Value]) -> Result<List<Value>, NoMemory>
    ensures { IfOk result (λ r. r ≡ all.now) }
{
    let mut done = List::new(alloc);
    for x in all {
        done.push(copy_value(alloc, x)?)?;
    }
    Ok(done)
}

/// An equal value.
#[cycle(copy)]
pub fn copy_value(alloc: Global, x: &Value) -> Result<Value, NoMemory>
    ensures { IfOk result (λ r. r ≡ x.now) }
{
    match x {
        Value::Leaf(leaf) => Ok(Value::Leaf(*leaf)),
        Value::Tuple(parts) => Ok(Value::Tuple(copy_values(alloc, parts.as_slice())?)),
    }
}

fn nil_leaf(leaf: &Leaf) -> bool
    ensures { result ≡ spec.nil_leaf leaf.now }
{
    matches!(leaf, Leaf::Nil)
}

/// Whether a value is the missing one.
pub fn is_nil(x: &Value) -> bool
    ensures { result ≡ spec.is_nil x.now }
{
    match x {
        Value::Leaf(leaf) => nil_leaf(leaf),
        Value::Tuple(_) => false,
    }
}

fn all_nil(all: &[Value]) -> bool
    ensures { result ≡ spec.all_nil all.now }
{
    for x in all {
        if !is_nil(x) {
            return false;
        }
    }
    true
}

/// A tuple; one whose parts are all Nil is Nil.
pub fn tuple(parts: List<Value>) -> Value
    ensures { result ≡ spec.tuple parts }
{
    if all_nil(parts.as_slice()) {
        nil()
    } else {
        Value::Tuple(parts)
    }
}

fn leaf_case(leaf: &Leaf) -> Option<u32>
    ensures { result ≡ spec.leaf_case leaf.now }
{
    match leaf {
        Leaf::Bool(false) => Some(0),
        Leaf::Bool(true) => Some(1),
        Leaf::Enum(_, k) => Some(*k),
        _ => None,
    }
}

/// The leaf that a value is, and Nil of a tuple.
pub fn the_leaf(x: &Value) -> Leaf
    ensures { result ≡ spec.the_leaf x.now }
{
    match x {
        Value::Leaf(leaf) => *leaf,
        Value::Tuple(_) => Leaf::Nil,
    }
}

/// The case that a value names: of `false` it is 0, and of `true` 1.
pub fn case_of(x: &Value) -> Option<u32>
    ensures { result ≡ spec.case_of x.now }
{
    leaf_case(&the_leaf(x))
}

/// The first of some values, and Nil where there is none.
fn head(alloc: Global, values: &[Value]) -> Result<Value, NoMemory>
    ensures { IfOk result (λ r. r ≡ own.head values.now) }
{
    match values {
        [] => Ok(nil()),
        [w, ..] => copy_value(alloc, w),
    }
}

/// The values after the first.
fn tail(values: &[Value]) -> &[Value]
    ensures { result.now ≡ own.tail values.now }
{
    match values {
        [] => values,
        [_, rest @ ..] => rest,
    }
}

#[cycle(pick)]
fn pick_in(
    alloc: Global,
    parts: &[Pat],
    x: u32,
    values: &[Value],
) -> Result<Option<Value>, NoMemory>
    ensures { IfOk result (λ r. r ≡ spec.pick_in (map spec.pick parts.now) x values.now) }
{
    let mut rest = values;
    for p in parts {
        let found = pick(alloc, p, x, &head(alloc, rest)?)?;
        if found.is_some() {
            return Ok(found);
        }
        rest = tail(rest);
    }
    Ok(None)
}

fn parts(x: &Value) -> &[Value]
    ensures { result.now ≡ spec.parts x.now }
{
    match x {
        Value::Leaf(_) => &[],
        Value::Tuple(all) => all.as_slice(),
    }
}

/// The part of a value that a pattern gives to a name; a part of Nil is Nil.
#[cycle(pick)]
pub fn pick(alloc: Global, pat: &Pat, x: u32, value: &Value) -> Result<Option<Value>, NoMemory>
    ensures { IfOk result (λ r. r ≡ spec.pick pat.now x value.now) }
{
    match pat {
        Pat::Any => Ok(None),
        Pat::Unit => Ok(None),
        Pat::Var(name) => {
            if name.0 == x {
                Ok(Some(copy_value(alloc, value)?))
            } else {
                Ok(None)
            }
        }
        Pat::Tuple(all) => pick_in(alloc, all.as_slice(), x, parts(value)),
    }
}

#[cycle(leaves)]
fn add_all_leaves(all: &[Value], done: &mut List<Leaf>) -> Result<(), NoMemory>
    ensures { OnOk result (done.new ≡ done.old ++ joined (map spec.leaves all.now)) }
{
    for x in all {
        add_leaves(x, done)?;
    }
    Ok(())
}

#[cycle(leaves)]
fn add_leaves(x: &Value, done: &mut List<Leaf>) -> Result<(), NoMemory>
    ensures { OnOk result (done.new ≡ done.old ++ spec.leaves x.now) }
{
    match x {
        Value::Leaf(leaf) => done.push(*leaf),
        Value::Tuple(parts) => add_all_leaves(parts.as_slice(), done),
    }
}

fn leaves(alloc: Global, x: &Value) -> Result<List<Leaf>, NoMemory>
    ensures { IfOk result (λ r. r ≡ spec.leaves x.now) }
{
    let mut done = List::new(alloc);
    add_leaves(x, &mut done)?;
    Ok(done)
}

fn any_nil(all: &[Leaf]) -> bool
    ensures { result ≡ spec.any_nil all.now }
{
    for leaf in all {
        if nil_leaf(leaf) {
            return true;
        }
    }
    false
}

/// The leaves after the first.
fn other_leaves(all: &[Leaf]) -> &[Leaf]
    ensures { result.now ≡ own.other_leaves all.now }
{
    match all {
        [] => all,
        [_, rest @ ..] => rest,
    }
}

/// A conjunction, and whether two leaves are equal.
fn and_equal(done: Leaf, a: Leaf, b: Leaf) -> Leaf
    ensures { result ≡ own.and_equal done a b }
{
    let here = evaluate(Op::Equal, &[a, b]).0;
    evaluate(Op::And, &[done, here]).0
}

/// Whether leaves are equal one by one, as far as both lists go: Nil where two of them have no
/// shape in common.
fn same_leaves(xs: &[Leaf], ys: &[Leaf]) -> Leaf
    ensures { result ≡ spec.same_leaves xs.now ys.now }
{
    let mut done = Leaf::Bool(true);
    let mut rest = ys;
    for a in xs {
        match rest.get(0) {
            None => return done,
            Some(b) => {
                done = and_equal(done, *a, *b);
                rest = other_leaves(rest);
            }
        }
    }
    done
}

#[tactic(auto, using(crate::proofs::Lists::any_nil_append))]
/// Equality of all leaves, and Nil where one of them is.
fn equal(xs: &[Leaf], ys: &[Leaf]) -> Leaf
    ensures { result ≡ spec.equal xs.now ys.now }
{
    if any_nil(xs) || any_nil(ys) {
        Leaf::Nil
    } else {
        same_leaves(xs, ys)
    }
}

fn choose_leaf(c: Leaf, a: Leaf, w: &Value) -> Value
    ensures { result ≡ spec.choose_step c (Value-F.Leaf a) w.now }
{
    match w {
        Value::Leaf(b) => Value::Leaf(evaluate(Op::Choose, &[c, a, *b]).0),
        Value::Tuple(_) => nil(),
    }
}

#[cycle(choose)]
fn choose_parts(
    alloc: Global,
    c: Leaf,
    all: &[Value],
    values: &[Value],
) -> Result<List<Value>, NoMemory>
    ensures { IfOk result (λ r. r ≡ spec.choose_parts (map (spec.choose c) all.now) values.now) }
{
    let mut done = List::new(alloc);
    let mut rest = values;
    for a in all {
        match rest {
            [] => return Ok(done),
            [w, more @ ..] => {
                done.push(choose(alloc, c, a, w)?)?;
                rest = more;
            }
        }
    }
    Ok(done)
}

/// The choice between two values, leaf by leaf.
#[cycle(choose)]
fn choose(alloc: Global, c: Leaf, a: &Value, w: &Value) -> Result<Value, NoMemory>
    ensures { IfOk result (λ r. r ≡ spec.choose c a.now w.now) }
{
    match a {
        Value::Leaf(leaf) => Ok(choose_leaf(c, *leaf, w)),
        Value::Tuple(all) => Ok(tuple(choose_parts(alloc, c, all.as_slice(), parts(w))?)),
    }
}

fn the_leaves(alloc: Global, args: &[Value]) -> Result<List<Leaf>, NoMemory>
    ensures { IfOk result (λ r. r ≡ map spec.the_leaf args.now) }
{
    let mut done = List::new(alloc);
    for x in args {
        done.push(the_leaf(x))?;
    }
    Ok(done)
}

/// The value of an operator on leaves.
fn eval_leaves(alloc: Global, op: Op, args: &[Value]) -> Result<Value, NoMemory>
    ensures { IfOk result (λ r. r ≡ own.by_leaves op args.now) }
{
    let leaves = the_leaves(alloc, args)?;
    Ok(Value::Leaf(evaluate(op, leaves.as_slice()).0))
}

fn eval_equal(alloc: Global, args: &[Value]) -> Result<Value, NoMemory>
    ensures { IfOk result (λ r. r ≡ spec.eval Op.Equal args.now) }
{
    match args {
        [a, b] => {
            let xs = leaves(alloc, a)?;
            let ys = leaves(alloc, b)?;
            Ok(Value::Leaf(equal(xs.as_slice(), ys.as_slice())))
        }
        [] | [_] | [_, _, _, ..] => eval_leaves(alloc, Op::Equal, args),
    }
}

fn eval_differ(alloc: Global, args: &[Value]) -> Result<Value, NoMemory>
    ensures { IfOk result (λ r. r ≡ spec.eval Op.Differ args.now) }
{
    match args {
        [a, b] => {
            let xs = leaves(alloc, a)?;
            let ys = leaves(alloc, b)?;
            let same = equal(xs.as_slice(), ys.as_slice());
            Ok(Value::Leaf(evaluate(Op::Not, &[same]).0))
        }
        [] | [_] | [_, _, _, ..] => eval_leaves(alloc, Op::Differ, args),
    }
}

fn eval_choose(alloc: Global, args: &[Value]) -> Result<Value, NoMemory>
    ensures { IfOk result (λ r. r ≡ spec.eval Op.Choose args.now) }
{
    match args {
        [c, a, b] => choose(alloc, the_leaf(c), a, b),
        [] | [_] | [_, _] | [_, _, _, _, ..] => eval_leaves(alloc, Op::Choose, args),
    }
}

/// The value of an operator.
pub fn eval(alloc: Global, op: Op, args: &[Value]) -> Result<Value, NoMemory>
    ensures { IfOk result (λ r. r ≡ spec.eval op args.now) }
{
    match op {
        Op::Equal => eval_equal(alloc, args),
        Op::Differ => eval_differ(alloc, args),
        Op::Choose => eval_choose(alloc, args),
        _ => eval_leaves(alloc, op, args),
    }
}

/// Whether an operator divides by zero.
pub fn alarm(alloc: Global, op: Op, args: &[Value]) -> Result<bool, NoMemory>
    ensures { IfOk result (λ r. r ≡ spec.alarm op args.now) }
{
    let leaves = the_leaves(alloc, args)?;
    Ok(evaluate(op, leaves.as_slice()).1 == Alarm::Division)
}
