//! The judgement on one definition.

ghost use Rattle.std.specs.Prelude.{◌≡◌, ◌++◌, ◌||◌, ◌<◌, ◌^◌, not, [], ◌∷◌, None, length, map, IfOk, IfErr, OnOk};
ghost use Rattle.std.specs.List.{list_all};
ghost use Rattle.scope_rules.specs.Places as places;
ghost use Rattle.scope_rules.specs.Faults as spec;
ghost use Rattle.scope_rules.specs.Resolved as resolved;
ghost use Rattle.ls_scope.specs.Judgement as judgement;
ghost use Rattle.ls_scope.specs.Marks.{Gives};
ghost use Rattle.ls_scope.specs.Sight.{sight_of};

use crate::arms::{any_open, covers};
use crate::asked::{ClaimFault, any_claim, asks_of, uses_of};
use crate::contents::{Contents, add_names, contents_of};
use crate::fault::ScopeFault;
use crate::known::Known;
use crate::marks::{Marks, marks_given, marks_of};
use crate::mixed::{
    MixedClaims, any_mixed_site, any_mixed_start, is_signal, is_signal_mark, signals_of, singles_of,
};
use crate::numbers::Numbers;
use crate::sight::Sight;
use crate::twice::{
    TwiceClaims, bound_again, hides_param, nested, repeated, repeated_arms, repeated_states,
    started_twice,
};
use crate::unbound::{
    Equations, UnboundClaims, any_unbound_arm, any_unbound_start, any_unbound_state,
};
use crate::variables::{Variables, variables_of};
use ls_ast::{BodyOf, Equation, Expr, Form, Mark, Pat};
use ls_base::{Line, List, Names, NoMemory, NoteCopy};
use ls_sig::{Binder, Use};
use scope_rules::{Asked, Claim, Earlier, UseNotes};
use std::alloc::Global;
use tree_notes::renote_body;

/// What is judged of a `let` definition.
#[derive(Drop)]
pub struct Judged<'a, N> {
    /// The spellings of names.
    pub names: &'a Names,
    pub known: &'a Known,
    pub title: u32,
    pub node: bool,
    pub params: &'a [Pat],
    pub body: &'a BodyOf<N>,
}

/// A definition with its binders and marks, and as later ones see it.
#[derive(Drop)]
pub struct Judgement {
    pub marks: List<Mark>,
    pub body: BodyOf<Use>,
    pub earlier: Earlier,
}

/// What the checks of one definition go by.
#[derive(Drop)]
struct Scene<'a, 'b, N> {
    judged: &'a Judged<'b, N>,
    sight: Sight<'a>,
    contents: &'a Contents<'b, N>,
    asks: &'a [Asked],
    /// The names in the parameters.
    names: &'a [u32],
}

fn names_of(alloc: Global, params: &[Pat]) -> Result<List<u32>, NoMemory>
    ensures { IfOk result (λ r. r ≡ places.joined (map places.names_of params.now)) }
{
    let mut done = List::new(alloc);
    for pat in params {
        add_names(pat, &mut done)?;
    }
    Ok(done)
}

fn numbers_of(alloc: Global, all: &[u32]) -> Result<Numbers, NoMemory>
    ensures { IfOk result (λ r. r ≡ all.now) }
{
    let mut done = Numbers::new(alloc);
    for x in all {
        done.push(*x)?;
    }
    Ok(done)
}

// Whether an initial equation, an arm, a branch or a state stands twice.
fn is_block_twice<N>(alloc: Global, it: &Scene<'_, '_, N>) -> Result<bool, NoMemory>
    ensures { IfOk result (λ r. r ≡ judgement.scene_blocks_twice it.now) }
{
    Ok(
        started_twice(alloc, it.contents.starts.as_slice())?
            || repeated_arms(alloc, it.judged.names, it.contents.arms.as_slice())?
            || repeated_states(alloc, it.contents.automata.as_slice())?
            || any_claim(alloc, &TwiceClaims, it.asks)?,
    )
}

// Whether a name, an arm or a state stands twice.
fn is_twice<N>(alloc: Global, it: &Scene<'_, '_, N>) -> Result<bool, NoMemory>
    ensures { IfOk result (λ r. r ≡ judgement.scene_twice it.now) }
{
    let sites = it.contents.sites.as_slice();
    Ok(
        it.judged.known.def_place(it.judged.title).is_some()
            || repeated(alloc, it.names)?
            || hides_param(it.sight.params, sites)
            || bound_again(alloc, sites)?
            || nested(alloc, it.sight.vars)?
            || is_block_twice(alloc, it)?,
    )
}

fn unbound_by<N>(
    alloc: Global,
    it: &Scene<'_, '_, N>,
    claims: &UnboundClaims<'_>,
) -> Result<bool, NoMemory>
    ensures { IfOk result (λ r. r ≡ judgement.scene_unbound it.now claims.now) }
{
    let (names, known) = (it.judged.names, it.judged.known);
    Ok(
        any_unbound_start(alloc, claims.equations, it.contents.starts.as_slice())?
            || any_unbound_arm(alloc, names, known, it.contents.arms.as_slice())?
            || any_unbound_state(alloc, it.contents.automata.as_slice())?
            || any_claim(alloc, claims, it.asks)?,
    )
}

// Whether a name, a constructor or a state is not bound at its place.
fn is_unbound<N>(alloc: Global, it: &Scene<'_, '_, N>) -> Result<bool, NoMemory>
    requires { judgement.Shows it.now }
    ensures { IfOk result (λ r. r ≡ spec.unbound (judgement.judged_of it.now.judged.now)) }
{
    let equations = Equations::new(alloc, it.contents.sites.as_slice())?;
    let claims = UnboundClaims {
        params: it.sight.params,
        equations: &equations,
        known: it.judged.known,
    };
    unbound_by(alloc, it, &claims)
}

// A `merge` that leaves a constructor out.
#[derive(Drop)]
struct OpenClaims<'a> {
    known: &'a Known,
}

impl<'a> ClaimFault for OpenClaims<'a> {
    ghost use Rattle.ls_scope.specs.Judgement as judgement;

    ghost fault = { λ it. judgement.open_claims it.known.now };

    fn is_fault(
        &self,
        alloc: Global,
        _place: &[(u32, u32)],
        claim: &Claim,
    ) -> Result<bool, NoMemory> {
        match claim {
            Claim::Branches(cases) => Ok(!covers(alloc, self.known, cases.as_slice())?),
            Claim::Named(_, _, _) => Ok(false),
            Claim::Constructor(_) => Ok(false),
            Claim::Stray => Ok(false),
            Claim::Answered => Ok(false),
            Claim::Timed => Ok(false),
        }
    }
}

// Whether a constructor has no arm or branch.
fn is_open<N>(alloc: Global, it: &Scene<'_, '_, N>) -> Result<bool, NoMemory>
    ensures { IfOk result (λ r. r ≡ judgement.scene_open it.now) }
{
    let known = it.judged.known;
    let claims = OpenClaims { known };
    Ok(
        any_open(alloc, it.judged.names, known, it.contents.arms.as_slice())?
            || any_claim(alloc, &claims, it.asks)?,
    )
}

fn mixed_by<N>(
    alloc: Global,
    it: &Scene<'_, '_, N>,
    claims: &MixedClaims<'_>,
) -> Result<bool, NoMemory>
    ensures { IfOk result (λ r. r ≡ judgement.scene_mixed it.now claims.now) }
{
    let (sites, starts) = (it.contents.sites.as_slice(), it.contents.starts.as_slice());
    Ok(
        any_mixed_site(alloc, &it.sight, claims.signals, sites)?
            || any_mixed_start(alloc, it.sight.vars, claims.signals, starts)?
            || any_claim(alloc, claims, it.asks)?,
    )
}

// Whether a name is used in two ways.
fn is_mixed<N>(alloc: Global, it: &Scene<'_, '_, N>, marks: &Marks) -> Result<bool, NoMemory>
    requires shows { judgement.Shows it.now }
    requires marks { Gives it.now.asks.now marks.now }
    ensures { IfOk result (λ r. r ≡ spec.mixed (judgement.judged_of it.now.judged.now)) }
{
    let signals = signals_of(alloc, &it.sight)?;
    let singles = singles_of(alloc, it.judged.params)?;
    let claims = MixedClaims {
        vars: it.sight.vars,
        signals: signals.as_slice(),
        singles: singles.as_slice(),
        marks,
        known: it.judged.known,
    };
    mixed_by(alloc, it, &claims)
}

// A form that is not combinatorial.
#[derive(Drop)]
struct TimedClaims;

impl ClaimFault for TimedClaims {
    ghost use Rattle.scope_rules.specs.Faults as spec;

    ghost fault = { λ it. spec.timed_claim };

    fn is_fault(
        &self,
        _alloc: Global,
        _place: &[(u32, u32)],
        claim: &Claim,
    ) -> Result<bool, NoMemory> {
        Ok(matches!(claim, Claim::Timed))
    }
}

fn is_plain<N>(eq: &Equation<N>) -> bool
    ensures { result ≡ spec.is_plain eq.now }
{
    matches!(eq, Equation::Plain(_, _))
}

fn all_plain<N>(all: &[Equation<N>]) -> bool
    ensures { result ≡ list_all spec.is_plain all.now }
{
    for eq in all {
        if !is_plain(eq) {
            return false;
        }
    }
    true
}

// Whether a definition without `node` is not combinatorial.
fn is_timed<N>(alloc: Global, it: &Scene<'_, '_, N>) -> Result<bool, NoMemory>
    ensures { IfOk result (λ r. r ≡ judgement.scene_timed it.now) }
{
    if it.judged.node {
        return Ok(false);
    }
    Ok(!all_plain(it.judged.body.eqs.as_slice()) || any_claim(alloc, &TimedClaims, it.asks)?)
}

fn is_signal_binder(
    alloc: Global,
    sight: &Sight<'_>,
    marks: &Marks,
    binder: Binder,
) -> Result<bool, NoMemory>
    ensures { IfOk result (λ r. r ≡ judgement.signal_binder (sight_of sight.now) marks.now binder) }
{
    match binder {
        Binder::Param(k) => Ok(is_signal_mark(marks.mark(k))),
        Binder::Var(k) => match sight.vars.as_slice().get(k as usize) {
            Some(v) => is_signal(alloc, sight, v),
            None => Ok(false),
        },
        Binder::Nothing => Ok(false),
        Binder::Def(_) => Ok(false),
        Binder::Case(_, _) => Ok(false),
    }
}

// Whether the result is a signal.
fn answers<N>(
    alloc: Global,
    sight: &Sight<'_>,
    marks: &Marks,
    e: &Expr<N>,
) -> Result<bool, NoMemory>
    ensures { IfOk result (λ r. r ≡ judgement.result_by (sight_of sight.now) marks.now (places.root e.now)) }
{
    match e.form.get() {
        Form::Var(x) => {
            let binder = sight.binder(alloc, &[], x.0)?;
            is_signal_binder(alloc, sight, marks, binder)
        }
        Form::Call { head, .. } => sight.answers(alloc, &[], head.0),
        _ => Ok(false),
    }
}

// What a definition without a fault gives.
fn outcome<N>(alloc: Global, it: &Scene<'_, '_, N>, marks: &Marks) -> Result<Judgement, NoMemory>
    requires shows { judgement.Shows it.now }
    requires marks { Gives it.now.asks.now marks.now }
    ensures { IfOk result (λ r. r ≡ judgement.judgement_of (judgement.judged_of it.now.judged.now)) }
{
    let d = it.judged;
    let list = marks_of(alloc, marks, d.params)?;
    let answers = answers(alloc, &it.sight, marks, &d.body.result)?;
    let mut notes = UseNotes {
        list: uses_of(alloc, &it.sight, it.contents.readings.as_slice())?,
        next: 0,
    };
    let body = renote_body(alloc, d.body, &mut notes)?;
    let earlier = Earlier {
        title: d.title,
        node: d.node,
        marks: list.copy(alloc)?,
        answers,
    };
    Ok(Judgement {
        marks: list,
        body,
        earlier,
    })
}

/// Judges a `let` definition that begins at a line.
pub fn judge<N>(alloc: Global, line: Line, d: &Judged<'_, N>) -> Result<Judgement, ScopeFault>
    requires { length d.now.params.now < 2 ^ 32 }
    ensures scoped { IfOk result (λ r. spec.fault (judgement.judged_of d.now) ≡ None) }
    ensures made { IfOk result (λ r. r ≡ judgement.judgement_of (judgement.judged_of d.now)) }
    ensures fault { IfErr result (λ f. judgement.Is f line.0 (spec.fault (judgement.judged_of d.now))) }
{
    let names = names_of(alloc, d.params)?;
    let params = numbers_of(alloc, names.as_slice())?;
    let contents = contents_of(alloc, d.params.len() as u32, d.body)?;
    let vars = variables_of(alloc, contents.sites.as_slice())?;
    judge_contents(alloc, line, d, names.as_slice(), &params, &contents, &vars)
}

fn judge_contents<N>(
    alloc: Global,
    line: Line,
    d: &Judged<'_, N>,
    names: &[u32],
    params: &Numbers,
    contents: &Contents<'_, N>,
    vars: &Variables,
) -> Result<Judgement, ScopeFault>
    requires { judgement.HasParts d.now names.now params.now contents.now vars.now }
    ensures scoped { IfOk result (λ r. spec.fault (judgement.judged_of d.now) ≡ None) }
    ensures made { IfOk result (λ r. r ≡ judgement.judgement_of (judgement.judged_of d.now)) }
    ensures fault { IfErr result (λ f. judgement.Is f line.0 (spec.fault (judgement.judged_of d.now))) }
{
    let sight = Sight {
        params,
        vars,
        known: d.known,
    };
    let asks = asks_of(alloc, &sight, contents.readings.as_slice())?;
    let it = Scene {
        judged: d,
        sight,
        contents,
        asks: asks.as_slice(),
        names,
    };
    judge_scene(alloc, line, &it)
}

fn judge_scene<N>(alloc: Global, line: Line, it: &Scene<'_, '_, N>) -> Result<Judgement, ScopeFault>
    requires { judgement.Shows it.now }
    ensures scoped { IfOk result (λ r. spec.fault (judgement.judged_of it.now.judged.now) ≡ None) }
    ensures made { IfOk result (λ r. r ≡ judgement.judgement_of (judgement.judged_of it.now.judged.now)) }
    ensures fault { IfErr result (λ f. judgement.Is f line.0 (spec.fault (judgement.judged_of it.now.judged.now))) }
{
    let twice = is_twice(alloc, it)?;
    if twice {
        return Err(ScopeFault::Twice(line));
    }
    let unbound = is_unbound(alloc, it)?;
    if unbound {
        return Err(ScopeFault::Unbound(line));
    }
    let uncovered = is_open(alloc, it)?;
    if uncovered {
        return Err(ScopeFault::NotAllArms(line));
    }
    let marks = marks_given(alloc, it.asks)?;
    let mixed = is_mixed(alloc, it, &marks)?;
    if mixed {
        return Err(ScopeFault::Mixed(line));
    }
    let timed = is_timed(alloc, it)?;
    if timed {
        return Err(ScopeFault::NotCombinatorial(line));
    }
    let judgement = outcome(alloc, it, &marks)?;
    Ok(judgement)
}
