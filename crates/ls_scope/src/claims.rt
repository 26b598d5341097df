//! What an expression asks of the scope.

ghost use Rattle.std.specs.Prelude.{◌≡◌, ◌≤◌, ℕ, List, [], ◌∷◌, ◌++◌, is_some, map, length, option_map, slice_get, OnOk, IfOk};
ghost use Rattle.std.specs.List.{list_all};
ghost use Rattle.ls_ast.specs.declared.tree.Mark.TheVariants as mark;
ghost use Rattle.ls_sig.specs.declared.binder.Binder as binder_type;
ghost use Rattle.scope_rules.specs.declared.claims.Earlier as earlier_type;
ghost use Rattle.scope_rules.specs.Claims as spec;
ghost use Rattle.scope_rules.specs.declared.claims.Stand.TheVariants.{At as at};

use ls_ast::{Case, Expr, Form, Mark};
use ls_base::{List, NoMemory};
use ls_sig::Binder;
use scope_rules::{Applied, Claim, Earlier, Stand};
use std::alloc::Global;

/// What tells the meaning of names and constructors at a place.
pub trait Binders {
    ghost bound: { Self → ℕ → binder_type.Binder };

    ghost cases: { Self → ℕ → binder_type.Binder };

    ghost defs: { Self → List earlier_type.Earlier };

    /// The binder of a name.
    fn bound(&self, alloc: Global, x: u32) -> Result<Binder, NoMemory>
        ensures { IfOk result (λ b. b ≡ bound self.now x) };

    /// What a constructor means.
    fn case(&self, c: u32) -> Binder
        ensures { result ≡ cases self.now c };

    /// What a name of this binder means where it is applied.
    fn applied(&self, binder: Binder) -> Applied<'_>
        ensures { spec.told_head result ≡ spec.head_by (defs self.now) binder };
}

fn add_if(condition: bool, claim: Claim, done: &mut List<Claim>) -> Result<(), NoMemory>
    ensures { OnOk result (done.new ≡ done.old ++ spec.claim_if condition claim) }
{
    if condition {
        done.push(claim)?;
    }
    Ok(())
}

fn add_name<W: Binders>(
    alloc: Global,
    x: u32,
    s: Stand,
    what: &W,
    done: &mut List<Claim>,
) -> Result<(), NoMemory>
    ensures { OnOk result (done.new ≡ done.old ++ spec.claim_of (W.bound what.now) x s ∷ []) }
{
    let binder = what.bound(alloc, x)?;
    done.push(Claim::Named(binder, x, s))
}

fn for_stream(s: Stand) -> bool
    ensures { result ≡ spec.for_stream s }
{
    match s {
        Stand::At(m) => match m {
            Mark::Clock => false,
            Mark::Signal => false,
            Mark::Comb => false,
            Mark::Seq => false,
            Mark::Data => true,
            Mark::Unknown => true,
        },
        Stand::Whole => true,
        Stand::Right => true,
        Stand::Loose => true,
        Stand::Before => true,
        Stand::Asked => true,
        Stand::Applied(_) => true,
    }
}

fn add_proper(s: Stand, done: &mut List<Claim>) -> Result<(), NoMemory>
    ensures { OnOk result (done.new ≡ done.old ++ spec.proper s) }
{
    add_if(!for_stream(s), Claim::Stray, done)
}

fn add_case(case: Case, done: &mut List<Claim>) -> Result<(), NoMemory>
    ensures { OnOk result (done.new ≡ done.old ++ spec.case_claims case) }
{
    match case {
        Case::Of(c) => done.push(Claim::Constructor(c.0)),
        Case::True => Ok(()),
        Case::False => Ok(()),
    }
}

fn cases_of<N>(alloc: Global, all: &[(Case, Expr<N>)]) -> Result<List<Case>, NoMemory>
    ensures { IfOk result (λ r. r ≡ spec.cases_in all.now) }
{
    let mut done = List::new(alloc);
    for branch in all {
        done.push(branch.0)?;
    }
    Ok(done)
}

/// Whether a parameter of this mark is a function.
pub fn is_function(m: Mark) -> bool
    ensures { result ≡ spec.is_function m }
{
    match m {
        Mark::Comb => true,
        Mark::Seq => true,
        Mark::Data => false,
        Mark::Clock => false,
        Mark::Signal => false,
        Mark::Unknown => false,
    }
}

fn is_loose(s: Stand) -> bool
    ensures { result ≡ spec.is_loose s }
{
    matches!(s, Stand::Loose)
}

fn for_function(s: Stand) -> bool
    ensures { result ≡ spec.for_function s }
{
    match s {
        Stand::At(m) => is_function(m),
        Stand::Loose => true,
        Stand::Whole => false,
        Stand::Right => false,
        Stand::Before => false,
        Stand::Asked => false,
        Stand::Applied(_) => false,
    }
}

fn for_answer(s: Stand) -> bool
    ensures { result ≡ spec.for_answer s }
{
    match s {
        Stand::Whole => true,
        Stand::Right => true,
        Stand::At(_) => false,
        Stand::Loose => false,
        Stand::Before => false,
        Stand::Asked => false,
        Stand::Applied(_) => false,
    }
}

fn given_some(run: bool, restarts: bool, d: &Earlier, n: usize, s: Stand) -> bool
    ensures { result ≡ spec.given_some run restarts d.now n s }
{
    for_function(s) && (!run && (!restarts && n < d.marks.len()))
}

fn all_functions(marks: &[Mark]) -> bool
    ensures { result ≡ list_all spec.is_function marks.now }
{
    for m in marks {
        if !is_function(*m) {
            return false;
        }
    }
    true
}

fn all_may_be_left(marks: &[Mark]) -> bool
    ensures { result ≡ list_all spec.may_be_left marks.now }
{
    for m in marks {
        if !(for_stream(Stand::At(*m)) || is_function(*m)) {
            return false;
        }
    }
    true
}

/// Whether a definition may be passed as a function, so many arguments being given.
pub fn passable(d: &Earlier, n: usize) -> bool
    requires { n ≤ length d.now.marks }
    ensures { result ≡ spec.passable d.now n }
{
    let marks = d.marks.as_slice();
    !d.answers && (all_functions(&marks[..n]) && all_may_be_left(&marks[n..]))
}

fn applied_by(run: bool) -> Mark
    ensures { result ≡ spec.applied_by run }
{
    if run { Mark::Seq } else { Mark::Comb }
}

fn stand_for(marks: &[Mark], i: usize) -> Stand
    ensures { result ≡ spec.stand_for (slice_get marks.now i) }
{
    match marks.get(i) {
        Some(m) => Stand::At(*m),
        None => Stand::At(Mark::Data),
    }
}

#[cycle(claims)]
fn add_all<N, W: Binders>(
    alloc: Global,
    all: &[Expr<N>],
    s: Stand,
    what: &W,
    done: &mut List<Claim>,
) -> Result<(), NoMemory>
    ensures { OnOk result (done.new ≡ done.old ++ spec.all_at s (map (spec.claims (W.defs what.now) (W.bound what.now)) all.now)) }
{
    for e in all {
        add_claims(alloc, e, s, what, done)?;
    }
    Ok(())
}

#[cycle(claims)]
fn add_branches<N, W: Binders>(
    alloc: Global,
    all: &[(Case, Expr<N>)],
    what: &W,
    done: &mut List<Claim>,
) -> Result<(), NoMemory>
    ensures { OnOk result (done.new ≡ done.old ++ spec.all_branches (spec.branch_claims (W.defs what.now) (W.bound what.now) all.now)) }
{
    for branch in all {
        add_claims(alloc, &branch.1, Stand::At(Mark::Data), what, done)?;
    }
    Ok(())
}

#[cycle(claims)]
fn add_at_marks<N, W: Binders>(
    alloc: Global,
    marks: &[Mark],
    args: &[Expr<N>],
    what: &W,
    done: &mut List<Claim>,
) -> Result<(), NoMemory>
    ensures { OnOk result (done.new ≡ done.old ++ spec.at_marks marks.now 0 (map (spec.claims (W.defs what.now) (W.bound what.now)) args.now)) }
{
    for (i, e) in args.iter().enumerate() {
        let s = stand_for(marks, i);
        add_claims(alloc, e, s, what, done)?;
    }
    Ok(())
}

#[cycle(claims)]
fn add_every<N, W: Binders>(
    alloc: Global,
    every: &Option<Expr<N>>,
    what: &W,
    done: &mut List<Claim>,
) -> Result<(), NoMemory>
    ensures { OnOk result (done.new ≡ done.old ++ spec.if_any (option_map (spec.claims (W.defs what.now) (W.bound what.now)) every.now)) }
{
    match every {
        None => Ok(()),
        Some(e) => add_claims(alloc, e, Stand::At(Mark::Data), what, done),
    }
}

/// Adds what an expression that stands so asks of the scope.
#[cycle(claims)]
pub fn add_claims<N, W: Binders>(
    alloc: Global,
    e: &Expr<N>,
    s: Stand,
    what: &W,
    done: &mut List<Claim>,
) -> Result<(), NoMemory>
    ensures { OnOk result (done.new ≡ done.old ++ spec.claims (W.defs what.now) (W.bound what.now) e.now s) }
{
    add_form(alloc, e.form.get(), s, what, done)
}

#[cycle(claims)]
fn add_merge<N, W: Binders>(
    alloc: Global,
    x: u32,
    all: &[(Case, Expr<N>)],
    s: Stand,
    what: &W,
    done: &mut List<Claim>,
) -> Result<(), NoMemory>
    ensures { OnOk result (done.new ≡ done.old ++ spec.merge_claims (spec.claim_of (W.bound what.now) x (at mark.Clock)) (spec.cases_in all.now) (spec.branch_claims (W.defs what.now) (W.bound what.now) all.now) s) }
{
    let cases = cases_of(alloc, all)?;
    done.push(Claim::Timed)?;
    add_name(alloc, x, Stand::At(Mark::Clock), what, done)?;
    done.push(Claim::Branches(cases))?;
    add_proper(s, done)?;
    add_branches(alloc, all, what, done)
}

#[cycle(claims)]
fn add_form<N, W: Binders>(
    alloc: Global,
    form: &Form<N>,
    s: Stand,
    what: &W,
    done: &mut List<Claim>,
) -> Result<(), NoMemory>
    ensures { OnOk result (done.new ≡ done.old ++ spec.form_claims (W.defs what.now) (W.bound what.now) form.now s) }
{
    let stream = Stand::At(Mark::Data);
    match form {
        Form::Leaf(_) => add_proper(s, done),
        Form::Case(c) => {
            done.push(Claim::Constructor(c.0))?;
            add_proper(s, done)
        }
        Form::Var(x) => add_name(alloc, x.0, s, what, done),
        Form::Last(x) => {
            done.push(Claim::Timed)?;
            add_name(alloc, x.0, Stand::Before, what, done)?;
            add_proper(s, done)
        }
        Form::Asked(x) => {
            done.push(Claim::Timed)?;
            add_name(alloc, x.0, Stand::Asked, what, done)?;
            add_proper(s, done)
        }
        Form::Op(_, args) => {
            add_proper(s, done)?;
            add_all(alloc, args.as_slice(), stream, what, done)
        }
        Form::Tuple(parts) => {
            add_proper(s, done)?;
            add_all(alloc, parts.as_slice(), stream, what, done)
        }
        Form::Pre(e) => {
            done.push(Claim::Timed)?;
            add_proper(s, done)?;
            add_claims(alloc, e, stream, what, done)
        }
        Form::Fby(a, b) => {
            done.push(Claim::Timed)?;
            add_proper(s, done)?;
            add_claims(alloc, a, stream, what, done)?;
            add_claims(alloc, b, stream, what, done)
        }
        Form::Init(a, b) => {
            done.push(Claim::Timed)?;
            add_proper(s, done)?;
            add_claims(alloc, a, stream, what, done)?;
            add_claims(alloc, b, stream, what, done)
        }
        Form::When(e, x, case) => {
            done.push(Claim::Timed)?;
            add_name(alloc, x.0, Stand::At(Mark::Clock), what, done)?;
            add_case(*case, done)?;
            add_proper(s, done)?;
            add_claims(alloc, e, stream, what, done)
        }
        Form::Merge(x, branches) => add_merge(alloc, x.0, branches.as_slice(), s, what, done),
        Form::Call {
            run,
            head,
            args,
            every,
        } => {
            add_name(alloc, head.0, Stand::Applied(applied_by(*run)), what, done)?;
            let restarts = every.is_some();
            let applied = what.applied(what.bound(alloc, head.0)?);
            add_call(
                alloc,
                applied,
                *run,
                restarts,
                args.as_slice(),
                s,
                what,
                done,
            )?;
            add_every(alloc, every, what, done)
        }
    }
}

#[cycle(claims)]
fn add_call<N, W: Binders>(
    alloc: Global,
    applied: Applied<'_>,
    run: bool,
    restarts: bool,
    args: &[Expr<N>],
    s: Stand,
    what: &W,
    done: &mut List<Claim>,
) -> Result<(), NoMemory>
    ensures { OnOk result (done.new ≡ done.old ++ spec.call_claims (spec.told_head applied.entry) run restarts (map (spec.claims (W.defs what.now) (W.bound what.now)) args.now) s) }
{
    match applied {
        Applied::Def(d) => add_def(alloc, d, run, restarts, args, s, what, done),
        Applied::Param => add_loose(alloc, Stand::Loose, run, restarts, args, s, what, done),
        Applied::Other => {
            let stream = Stand::At(Mark::Data);
            add_loose(alloc, stream, run, restarts, args, s, what, done)
        }
    }
}

#[cycle(claims)]
fn add_loose<N, W: Binders>(
    alloc: Global,
    position: Stand,
    run: bool,
    restarts: bool,
    args: &[Expr<N>],
    s: Stand,
    what: &W,
    done: &mut List<Claim>,
) -> Result<(), NoMemory>
    ensures { OnOk result (done.new ≡ done.old ++ spec.loose_claims position run restarts (map (spec.claims (W.defs what.now) (W.bound what.now)) args.now) s) }
{
    add_proper(s, done)?;
    add_if(run || restarts, Claim::Timed, done)?;
    add_all(alloc, args, position, what, done)
}

#[cycle(claims)]
fn add_def<N, W: Binders>(
    alloc: Global,
    d: &Earlier,
    run: bool,
    restarts: bool,
    args: &[Expr<N>],
    s: Stand,
    what: &W,
    done: &mut List<Claim>,
) -> Result<(), NoMemory>
    ensures { OnOk result (done.new ≡ done.old ++ spec.def_claims (spec.given_some run restarts d.now (length args.now) s) run restarts d.now (map (spec.claims (W.defs what.now) (W.bound what.now)) args.now) s) }
{
    let marks = d.marks.as_slice();
    if given_some(run, restarts, d, args.len(), s) {
        let fit = is_loose(s) || passable(d, args.len());
        add_if(!fit, Claim::Stray, done)?;
        return add_at_marks(alloc, marks, args, what, done);
    }
    add_proper(s, done)?;
    add_if(d.answers && !for_answer(s), Claim::Answered, done)?;
    add_if(run || (restarts || d.node), Claim::Timed, done)?;
    add_at_marks(alloc, marks, args, what, done)
}
