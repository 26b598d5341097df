//! What expressions ask.

ghost use Rattle.std.specs.Prelude.{◌≡◌, ◌<◌, ◌≤◌, ◌∷◌, [], ◌++◌, length, drop, false, None, Some, is_some, OnOk, IfOk};
ghost use Rattle.std.specs.Option.{option_copied};
ghost use Rattle.type_readings.specs.Given as scene;
ghost use Rattle.type_readings.specs.Readings as spec;
ghost use Rattle.type_rules.specs.Expressions as ex;
ghost use Rattle.type_rules.specs.Numbers.{bound_of, place_of};

use crate::fits::{Fit, any, any_signal, fits_one, fits_three, fits_two, is_signal_type, never};
use crate::given::{CaseTypes, Given};
use crate::operators::{literal_type, operand_types, result_type, variables};
use crate::stand::Stand;
use ls_ast::{Case, Expr, Form, Mark};
use ls_base::{Boxed, List, NoMemory, NoteCopy};
use ls_ops::{Op, sign_of};
use ls_sig::{Binder, Sig, Use};
use ls_terms::{Kind, TypeTerm};
use std::alloc::Global;
use type_rules::Demand;

/// The note of a place: its binder, and its number.
pub type Placed = (Use, u32);

/// The places of some expressions.
fn places(alloc: Global, all: &[Expr<Placed>]) -> Result<List<u32>, NoMemory>
    ensures { IfOk result (λ r. r ≡ spec.places all.now) }
{
    let mut list = List::new(alloc);
    for e in all {
        list.push(e.note.1)?;
    }
    Ok(list)
}

/// Adds each expression with the scheme in its place.
fn add_fits(
    alloc: Global,
    all: &[Expr<Placed>],
    schemes: &[TypeTerm],
    list: &mut List<Fit>,
) -> Result<(), NoMemory>
    ensures { OnOk result (list.new ≡ list.old ++ spec.zipped all.now schemes.now) }
{
    for (at, e) in all.iter().enumerate() {
        match schemes.get(at) {
            Some(scheme) => list.push((e.note.1, scheme.copy(alloc)?))?,
            None => return Ok(()),
        }
    }
    Ok(())
}

/// Adds each branch of a `merge`.
fn add_branches(all: &[(Case, Expr<Placed>)], list: &mut List<Fit>) -> Result<(), NoMemory>
    ensures { OnOk result (list.new ≡ list.old ++ spec.branch_fits all.now) }
{
    for choice in all {
        list.push((choice.1.note.1, any()))?;
    }
    Ok(())
}

/// The place is the result of a scheme, and the arguments are its parts.
fn fits_call(
    alloc: Global,
    place: u32,
    result_scheme: TypeTerm,
    args: &[Expr<Placed>],
    schemes: &[TypeTerm],
    out: &mut List<Demand<u32>>,
) -> Result<(), NoMemory>
    ensures { OnOk result (out.new ≡ out.old ++ Demand.Fits ((place, result_scheme) ∷ spec.zipped args.now schemes.now) ∷ []) }
{
    let mut list = List::new(alloc);
    list.push((place, result_scheme))?;
    add_fits(alloc, args, schemes, &mut list)?;
    out.push(Demand::Fits(list))
}

/// The operands of an operator and its result, where it has as many operands as it takes, which
/// is answered.
fn fits_operator(
    alloc: Global,
    place: u32,
    op: Op,
    args: &[Expr<Placed>],
    out: &mut List<Demand<u32>>,
) -> Result<bool, NoMemory>
    ensures agree { IfOk result (λ r. r ≡ spec.operands_agree op (length args.now)) }
    ensures out { OnOk result (out.new ≡ out.old ++ spec.operator_fits place op args.now) }
{
    let sign = sign_of(op);
    let operands = operand_types(alloc, sign)?;
    if operands.len() != args.len() {
        never(out)?;
        return Ok(false);
    }
    fits_call(
        alloc,
        place,
        result_type(sign),
        args,
        operands.as_slice(),
        out,
    )?;
    Ok(true)
}

fn fits_tuple(
    alloc: Global,
    place: u32,
    parts: &List<Expr<Placed>>,
    out: &mut List<Demand<u32>>,
) -> Result<(), NoMemory>
    ensures { OnOk result (out.new ≡ out.old ++ Demand.Fits ((place, TypeTerm.Tuple (ex.vars_from 0 (length parts.now))) ∷ spec.zipped parts.now (ex.vars_from 0 (length parts.now))) ∷ []) }
{
    let all = variables(alloc, parts.len())?;
    let whole = TypeTerm::Tuple(all.copy(alloc)?);
    fits_call(alloc, place, whole, parts.as_slice(), all.as_slice(), out)
}

/// The terms from a place on.
fn copy_from(alloc: Global, all: &[TypeTerm], from: usize) -> Result<List<TypeTerm>, NoMemory>
    requires { from ≤ length all.now }
    ensures { IfOk result (λ r. r ≡ drop from all.now) }
{
    let rest = &all[from..];
    let mut done = List::new(alloc);
    for t in rest {
        done.push(t.copy(alloc)?)?;
    }
    Ok(done)
}

/// What is left of a definition after some arguments is the function of the rest.
fn fits_rest(
    alloc: Global,
    place: u32,
    sig: &Sig,
    args: &[Expr<Placed>],
    out: &mut List<Demand<u32>>,
) -> Result<(), NoMemory>
    requires { length args.now < length sig.now.params }
    ensures { OnOk result (out.new ≡ out.old ++ Demand.Fits ((place, ex.rest_of sig.now (length args.now)) ∷ spec.zipped args.now sig.now.params) ∷ []) }
{
    let params = sig.params.as_slice();
    let rest = copy_from(alloc, params, args.len())?;
    let to = Boxed::new(alloc, sig.result.copy(alloc)?)?;
    let function = TypeTerm::Arrow(sig.kind, rest, to);
    fits_call(alloc, place, function, args, params, out)
}

fn is_functional(mark: Mark) -> bool
    ensures { result ≡ ex.is_functional mark }
{
    match mark {
        Mark::Comb => true,
        Mark::Seq => true,
        Mark::Unknown => false,
        Mark::Data => false,
        Mark::Clock => false,
        Mark::Signal => false,
    }
}

fn is_bare(mark: Mark) -> bool
    ensures { result ≡ ex.is_bare mark }
{
    match mark {
        Mark::Comb => true,
        Mark::Seq => true,
        Mark::Signal => true,
        Mark::Unknown => false,
        Mark::Data => false,
        Mark::Clock => false,
    }
}

fn is_stream(mark: Mark) -> bool
    ensures { result ≡ ex.is_stream mark }
{
    match mark {
        Mark::Clock => false,
        Mark::Signal => false,
        Mark::Comb => true,
        Mark::Seq => true,
        Mark::Unknown => true,
        Mark::Data => true,
    }
}

/// Whether the parameters from a place on are streams or functions.
fn are_streams(marks: &[Mark], from: usize) -> bool
    ensures { result ≡ ex.all_streams (drop from marks.now) }
{
    if from >= marks.len() {
        return true;
    }
    let rest = &marks[from..];
    for mark in rest {
        if !is_stream(*mark) {
            return false;
        }
    }
    true
}

/// Whether what is left of a definition after some arguments is passed as a function: its other
/// parameters are streams or functions, and its result is no signal.
fn is_passed(sig: &Sig, count: usize) -> bool
    ensures { result ≡ ex.is_passed sig.now count }
{
    !is_signal_type(&sig.result) && are_streams(sig.marks.as_slice(), count)
}

/// What the call of a definition is.
#[derive(Clone, Copy, Debug, PartialEq, Eq)]
pub enum CallKind {
    /// It may not stand so.
    Never,
    /// It has all arguments.
    Whole,
    /// It is a function of the arguments that it lacks.
    Partial,
}

/// What the call of a definition with so many arguments is; `alone` says that nothing restarts it.
fn call_kind(sig: Option<&Sig>, run: bool, count: usize, alone: bool) -> CallKind
    ensures { result ≡ spec.call_kind (option_copied sig.entry) run count alone }
{
    match sig {
        None => CallKind::Never,
        Some(sig) => kind_of(sig, run, count, alone),
    }
}

fn kind_of(sig: &Sig, run: bool, count: usize, alone: bool) -> CallKind
    ensures { result ≡ spec.call_kind (Some sig.now) run count alone }
{
    if run && is_pointwise(sig.kind) {
        return CallKind::Never;
    }
    if count == sig.params.len() {
        return CallKind::Whole;
    }
    if count < sig.params.len() && !run && alone {
        return CallKind::Partial;
    }
    CallKind::Never
}

fn is_pointwise(kind: Kind) -> bool
    ensures { result ≡ ex.same_kind kind Kind.Comb }
{
    match kind {
        Kind::Comb => true,
        Kind::Seq => false,
    }
}

fn is_bare_stand(stand: Stand) -> bool
    ensures { result ≡ spec.is_bare stand }
{
    match stand {
        Stand::Bare => true,
        Stand::Stream => false,
        Stand::Whole => false,
        Stand::Body => false,
    }
}

fn is_whole_stand(stand: Stand) -> bool
    ensures { result ≡ spec.is_whole stand }
{
    match stand {
        Stand::Whole => true,
        Stand::Body => true,
        Stand::Stream => false,
        Stand::Bare => false,
    }
}

/// What a call is where it stands so: a function that is left stands bare alone.
fn admitted_kind(sig: Option<&Sig>, run: bool, count: usize, alone: bool, stand: Stand) -> CallKind
    ensures { result ≡ spec.opened_kind (option_copied sig.entry) run count alone stand }
{
    let kind = call_kind(sig, run, count, alone);
    match kind {
        CallKind::Never => CallKind::Never,
        CallKind::Whole => CallKind::Whole,
        CallKind::Partial => match sig {
            None => CallKind::Never,
            Some(sig) => {
                if is_bare_stand(stand) && is_passed(sig, count) {
                    CallKind::Partial
                } else {
                    CallKind::Never
                }
            }
        },
    }
}

/// A call of a kind begins: its own type and those of its arguments.
fn open_call(
    alloc: Global,
    place: u32,
    sig: Option<&Sig>,
    kind: CallKind,
    args: &[Expr<Placed>],
    out: &mut List<Demand<u32>>,
) -> Result<(), NoMemory>
    requires { spec.HasRoom (option_copied sig) kind (length args.now) }
    ensures { OnOk result (out.new ≡ out.old ++ spec.opening place (option_copied sig.entry) args.now kind) }
{
    match sig {
        None => never(out),
        Some(sig) => match kind {
            CallKind::Whole => {
                let scheme = sig.result.copy(alloc)?;
                fits_call(alloc, place, scheme, args, sig.params.as_slice(), out)
            }
            CallKind::Partial => fits_rest(alloc, place, sig, args, out),
            CallKind::Never => never(out),
        },
    }
}

/// The end of a call that has all arguments: its result is data, where it may not be a signal.
fn close_call(
    alloc: Global,
    place: u32,
    sig: Option<&Sig>,
    stand: Stand,
    out: &mut List<Demand<u32>>,
) -> Result<(), NoMemory>
    ensures { OnOk result (out.new ≡ out.old ++ spec.closed place (option_copied sig.entry) stand) }
{
    match sig {
        None => fits_one(alloc, place, any(), out),
        Some(sig) => {
            if is_signal_type(&sig.result) && is_whole_stand(stand) {
                return Ok(());
            }
            fits_one(alloc, place, any(), out)
        }
    }
}

/// The use of a definition without arguments.
fn ask_definition(
    alloc: Global,
    place: u32,
    sig: Option<&Sig>,
    stand: Stand,
    out: &mut List<Demand<u32>>,
) -> Result<(), NoMemory>
    ensures { OnOk result (out.new ≡ out.old ++ spec.asked stand (ex.call_of place (option_copied sig.entry) false [] None)) }
{
    let kind = admitted_kind(sig, false, 0, true, stand);
    open_call(alloc, place, sig, kind, &[], out)?;
    match kind {
        CallKind::Whole => close_call(alloc, place, sig, stand, out),
        CallKind::Never => Ok(()),
        CallKind::Partial => Ok(()),
    }
}

/// The name of a parameter or a variable.
fn ask_name(
    alloc: Global,
    place: u32,
    signal: bool,
    name: Option<u32>,
    stand: Stand,
    out: &mut List<Demand<u32>>,
) -> Result<(), NoMemory>
    ensures { OnOk result (out.new ≡ out.old ++ spec.named place signal name stand) }
{
    match name {
        None => never(out),
        Some(name) => match stand {
            Stand::Bare => out.push(Demand::Equal(place, name)),
            Stand::Body => {
                if signal {
                    out.push(Demand::Equal(place, name))
                } else {
                    fits_two(alloc, (place, any()), (name, any()), out)
                }
            }
            Stand::Stream => fits_two(alloc, (place, any()), (name, any()), out),
            Stand::Whole => fits_two(alloc, (place, any()), (name, any()), out),
        },
    }
}

fn is_signal_mark(mark: Mark) -> bool
    ensures { result ≡ ex.is_signal_mark mark }
{
    match mark {
        Mark::Signal => true,
        Mark::Comb => false,
        Mark::Seq => false,
        Mark::Unknown => false,
        Mark::Data => false,
        Mark::Clock => false,
    }
}

fn ask_use<C: CaseTypes>(
    alloc: Global,
    note: &Placed,
    stand: Stand,
    given: &Given<C>,
    out: &mut List<Demand<u32>>,
) -> Result<(), NoMemory>
    requires { scene.fits given.now }
    ensures { OnOk result (out.new ≡ out.old ++ spec.asked stand (spec.use_of C.case_type given.now (place_of note.now) (bound_of note.now))) }
{
    let place = note.1;
    match note.0.bound {
        Binder::Def(k) => ask_definition(alloc, place, given.sigs.get(k as usize), stand, out),
        Binder::Param(k) => {
            let signal = is_signal_mark(given.mark(k));
            ask_name(alloc, place, signal, given.place(note.0.bound), stand, out)
        }
        Binder::Var(k) => {
            let signal = given.is_signal(k);
            ask_name(alloc, place, signal, given.place(note.0.bound), stand, out)
        }
        Binder::Nothing => never(out),
        Binder::Case(_, _) => never(out),
    }
}

fn ask_constructor(
    alloc: Global,
    note: &Placed,
    out: &mut List<Demand<u32>>,
) -> Result<(), NoMemory>
    ensures { OnOk result (out.new ≡ out.old ++ spec.constructor_demand (place_of note.now) (bound_of note.now) ∷ []) }
{
    match note.0.bound {
        Binder::Case(e, _) => fits_one(alloc, note.1, TypeTerm::Enum(e), out),
        Binder::Nothing => never(out),
        Binder::Def(_) => never(out),
        Binder::Param(_) => never(out),
        Binder::Var(_) => never(out),
    }
}

fn ask_last(
    alloc: Global,
    place: u32,
    name: Option<u32>,
    out: &mut List<Demand<u32>>,
) -> Result<(), NoMemory>
    ensures { OnOk result (out.new ≡ out.old ++ spec.last_demand place name ∷ []) }
{
    match name {
        None => never(out),
        Some(name) => fits_two(alloc, (place, any()), (name, any()), out),
    }
}

fn ask_presence(
    alloc: Global,
    place: u32,
    name: Option<u32>,
    out: &mut List<Demand<u32>>,
) -> Result<(), NoMemory>
    ensures { OnOk result (out.new ≡ out.old ++ ex.asked place name) }
{
    match name {
        None => never(out),
        Some(name) => {
            let signal = any_signal(alloc)?;
            fits_two(alloc, (place, TypeTerm::Bool), (name, signal), out)
        }
    }
}

/// `e when C(c)`: c has the type of C, and the whole that of e.
fn fits_sampled(
    alloc: Global,
    name: Option<u32>,
    case: Option<TypeTerm>,
    place: u32,
    e: u32,
    out: &mut List<Demand<u32>>,
) -> Result<(), NoMemory>
    ensures { OnOk result (out.new ≡ out.old ++ ex.condition name case ((place, ex.any) ∷ (e, ex.any) ∷ []) ∷ []) }
{
    match name {
        None => never(out),
        Some(name) => match case {
            None => never(out),
            Some(case) => fits_three(alloc, (name, case), (place, any()), (e, any()), out),
        },
    }
}

/// A case of a `merge` on c: c has the type of the case.
fn fits_case(
    alloc: Global,
    name: Option<u32>,
    case: Option<TypeTerm>,
    out: &mut List<Demand<u32>>,
) -> Result<(), NoMemory>
    ensures { OnOk result (out.new ≡ out.old ++ ex.condition name case [] ∷ []) }
{
    match name {
        None => never(out),
        Some(name) => match case {
            None => never(out),
            Some(case) => fits_one(alloc, name, case, out),
        },
    }
}

/// The branches of a `merge` and the whole have one type.
fn fits_merge(
    alloc: Global,
    place: u32,
    all: &[(Case, Expr<Placed>)],
    out: &mut List<Demand<u32>>,
) -> Result<(), NoMemory>
    ensures { OnOk result (out.new ≡ out.old ++ Demand.Fits ((place, ex.any) ∷ spec.branch_fits all.now) ∷ []) }
{
    let mut list = List::new(alloc);
    list.push((place, any()))?;
    add_branches(all, &mut list)?;
    out.push(Demand::Fits(list))
}

/// The application of a parameter: it is the function from the arguments to the whole, which is
/// data.
fn fits_application(
    alloc: Global,
    place: u32,
    function: u32,
    run: bool,
    args: &[Expr<Placed>],
    out: &mut List<Demand<u32>>,
) -> Result<(), NoMemory>
    ensures { OnOk result (out.new ≡ out.old ++ Demand.Function function (ex.kind_of run) (spec.places args.now) place ∷ Demand.Fits ((place, ex.any) ∷ []) ∷ []) }
{
    let kind = if run { Kind::Seq } else { Kind::Comb };
    let places = places(alloc, args)?;
    out.push(Demand::Function(function, kind, places, place))?;
    fits_one(alloc, place, any(), out)
}

fn is_partial(kind: CallKind) -> bool
    ensures { result ≡ spec.is_partial_call kind }
{
    match kind {
        CallKind::Partial => true,
        CallKind::Whole => false,
        CallKind::Never => false,
    }
}

fn is_whole(kind: CallKind) -> bool
    ensures { result ≡ spec.is_whole_call kind }
{
    match kind {
        CallKind::Whole => true,
        CallKind::Partial => false,
        CallKind::Never => false,
    }
}

fn use_function<C: CaseTypes>(bound: Binder, given: &Given<C>) -> bool
    requires { scene.fits given.now }
    ensures { result ≡ spec.use_function C.case_type given.now bound }
{
    match bound {
        Binder::Param(k) => given.place(bound).is_some() && is_functional(given.mark(k)),
        Binder::Def(k) => is_partial(call_kind(given.sigs.get(k as usize), false, 0, true)),
        Binder::Nothing => false,
        Binder::Var(_) => false,
        Binder::Case(_, _) => false,
    }
}

fn head_function<C: CaseTypes>(
    bound: Binder,
    run: bool,
    count: usize,
    alone: bool,
    given: &Given<C>,
) -> bool
    ensures { result ≡ spec.head_function C.case_type given.now bound run count alone }
{
    match bound {
        Binder::Def(k) => is_partial(call_kind(given.sigs.get(k as usize), run, count, alone)),
        Binder::Param(_) => false,
        Binder::Nothing => false,
        Binder::Var(_) => false,
        Binder::Case(_, _) => false,
    }
}

fn form_function<C: CaseTypes>(form: &Form<Placed>, bound: Binder, given: &Given<C>) -> bool
    requires { scene.fits given.now }
    ensures { result ≡ spec.function_of C.case_type given.now form.now bound }
{
    match form {
        Form::Var(_) => use_function(bound, given),
        Form::Call {
            run,
            args,
            every,
            ..
        } => head_function(bound, *run, args.len(), every.is_none(), given),
        Form::Leaf(_) => false,
        Form::Case(_) => false,
        Form::Last(_) => false,
        Form::Asked(_) => false,
        Form::Op(_, _) => false,
        Form::Tuple(_) => false,
        Form::Pre(_) => false,
        Form::Fby(_, _) => false,
        Form::Init(_, _) => false,
        Form::When(_, _, _) => false,
        Form::Merge(_, _) => false,
    }
}

/// Whether an argument of a parameter is a function.
fn is_function<C: CaseTypes>(e: &Expr<Placed>, given: &Given<C>) -> bool
    requires { scene.fits given.now }
    ensures { result ≡ (scene.said C.case_type given.now e.now).is_function }
{
    form_function(e.form.get(), e.note.0.bound, given)
}

fn call_answers(sig: Option<&Sig>, run: bool, count: usize) -> bool
    ensures { result ≡ spec.call_answers (option_copied sig.entry) run count }
{
    match sig {
        None => false,
        Some(sig) => is_whole(kind_of(sig, run, count, false)) && is_signal_type(&sig.result),
    }
}

fn use_answers<C: CaseTypes>(bound: Binder, given: &Given<C>) -> bool
    ensures { result ≡ spec.use_answers C.case_type given.now bound }
{
    match bound {
        Binder::Def(k) => call_answers(given.sigs.get(k as usize), false, 0),
        Binder::Param(_) => false,
        Binder::Nothing => false,
        Binder::Var(_) => false,
        Binder::Case(_, _) => false,
    }
}

fn head_answers<C: CaseTypes>(bound: Binder, run: bool, count: usize, given: &Given<C>) -> bool
    ensures { result ≡ spec.head_answers C.case_type given.now bound run count }
{
    match bound {
        Binder::Def(k) => call_answers(given.sigs.get(k as usize), run, count),
        Binder::Param(_) => false,
        Binder::Nothing => false,
        Binder::Var(_) => false,
        Binder::Case(_, _) => false,
    }
}

fn form_answers<C: CaseTypes>(form: &Form<Placed>, bound: Binder, given: &Given<C>) -> bool
    ensures { result ≡ spec.answers_of C.case_type given.now form.now bound }
{
    match form {
        Form::Var(_) => use_answers(bound, given),
        Form::Call { run, args, .. } => head_answers(bound, *run, args.len(), given),
        Form::Leaf(_) => false,
        Form::Case(_) => false,
        Form::Last(_) => false,
        Form::Asked(_) => false,
        Form::Op(_, _) => false,
        Form::Tuple(_) => false,
        Form::Pre(_) => false,
        Form::Fby(_, _) => false,
        Form::Init(_, _) => false,
        Form::When(_, _, _) => false,
        Form::Merge(_, _) => false,
    }
}

/// Whether an expression is a call that answers a signal.
pub fn answers_signal<C: CaseTypes>(e: &Expr<Placed>, given: &Given<C>) -> bool
    ensures { result ≡ (scene.said C.case_type given.now e.now).answers_signal }
{
    form_answers(e.form.get(), e.note.0.bound, given)
}

/// Where the argument of a parameter stands.
fn stand_in<C: CaseTypes>(e: &Expr<Placed>, given: &Given<C>) -> Stand
    requires { scene.fits given.now }
    ensures { result ≡ spec.stand_in (scene.said C.case_type given.now e.now).is_function }
{
    if is_function(e, given) {
        Stand::Bare
    } else {
        Stand::Stream
    }
}

/// Where the argument of this place stands.
fn stand_at(marks: &[Mark], at: usize) -> Stand
    ensures { result ≡ spec.stand_at marks.now at }
{
    match marks.get(at) {
        None => Stand::Stream,
        Some(mark) => {
            if is_bare(*mark) {
                Stand::Bare
            } else {
                Stand::Stream
            }
        }
    }
}

#[cycle(ask)]
fn ask_streams<C: CaseTypes>(
    alloc: Global,
    all: &[Expr<Placed>],
    given: &Given<C>,
    out: &mut List<Demand<u32>>,
) -> Result<(), NoMemory>
    requires { scene.fits given.now }
    ensures { OnOk result (out.new ≡ out.old ++ ex.streams (spec.readings C.case_type given.now all.now)) }
{
    for e in all {
        ask_expr(alloc, e, Stand::Stream, given, out)?;
    }
    Ok(())
}

/// The arguments of a definition, by the marks of its parameters.
#[cycle(ask)]
fn ask_given<C: CaseTypes>(
    alloc: Global,
    marks: &[Mark],
    all: &[Expr<Placed>],
    given: &Given<C>,
    out: &mut List<Demand<u32>>,
) -> Result<(), NoMemory>
    requires { scene.fits given.now }
    ensures { OnOk result (out.new ≡ out.old ++ ex.given marks.now (spec.readings C.case_type given.now all.now)) }
{
    for (at, e) in all.iter().enumerate() {
        let stand = stand_at(marks, at);
        ask_expr(alloc, e, stand, given, out)?;
    }
    Ok(())
}

/// The arguments of a parameter.
#[cycle(ask)]
fn ask_applied<C: CaseTypes>(
    alloc: Global,
    all: &[Expr<Placed>],
    given: &Given<C>,
    out: &mut List<Demand<u32>>,
) -> Result<(), NoMemory>
    requires { scene.fits given.now }
    ensures { OnOk result (out.new ≡ out.old ++ ex.applied (spec.readings C.case_type given.now all.now)) }
{
    for e in all {
        let stand = stand_in(e, given);
        ask_expr(alloc, e, stand, given, out)?;
    }
    Ok(())
}

/// The branches of a `merge` on a name.
#[cycle(ask)]
fn ask_branches<C: CaseTypes>(
    alloc: Global,
    name: Option<u32>,
    all: &[(Case, Expr<Placed>)],
    given: &Given<C>,
    out: &mut List<Demand<u32>>,
) -> Result<(), NoMemory>
    requires { scene.fits given.now }
    ensures { OnOk result (out.new ≡ out.old ++ spec.branches C.case_type given.now name (spec.choices C.case_type given.now all.now)) }
{
    for choice in all {
        fits_case(alloc, name, given.case_type(choice.0), out)?;
        ask_expr(alloc, &choice.1, Stand::Stream, given, out)?;
    }
    Ok(())
}

/// The condition of an `every`.
#[cycle(ask)]
fn ask_restarts<C: CaseTypes>(
    alloc: Global,
    every: &Option<Expr<Placed>>,
    given: &Given<C>,
    out: &mut List<Demand<u32>>,
) -> Result<(), NoMemory>
    requires { scene.fits given.now }
    ensures { OnOk result (out.new ≡ out.old ++ ex.restarts (spec.maybe C.case_type given.now every.now)) }
{
    match every {
        None => Ok(()),
        Some(e) => {
            fits_one(alloc, e.note.1, TypeTerm::Bool, out)?;
            ask_expr(alloc, e, Stand::Stream, given, out)
        }
    }
}

/// The call of a definition begins: what opens it, and its arguments. What it is is answered.
#[cycle(ask)]
fn ask_opened<C: CaseTypes>(
    alloc: Global,
    place: u32,
    sig: Option<&Sig>,
    run: bool,
    args: &[Expr<Placed>],
    alone: bool,
    stand: Stand,
    given: &Given<C>,
    out: &mut List<Demand<u32>>,
) -> Result<CallKind, NoMemory>
    requires { scene.fits given.now }
    ensures kind { IfOk result (λ r. r ≡ spec.opened_kind (option_copied sig.entry) run (length args.now) alone stand) }
    ensures out { OnOk result (out.new ≡ out.old ++ spec.begun C.case_type given.now place (option_copied sig.entry) args.now (spec.opened_kind (option_copied sig.entry) run (length args.now) alone stand)) }
{
    let kind = admitted_kind(sig, run, args.len(), alone, stand);
    open_call(alloc, place, sig, kind, args, out)?;
    ask_arguments(alloc, sig, kind, args, given, out)?;
    Ok(kind)
}

/// The arguments of a call of a kind.
#[cycle(ask)]
fn ask_arguments<C: CaseTypes>(
    alloc: Global,
    sig: Option<&Sig>,
    kind: CallKind,
    args: &[Expr<Placed>],
    given: &Given<C>,
    out: &mut List<Demand<u32>>,
) -> Result<(), NoMemory>
    requires { scene.fits given.now }
    ensures { OnOk result (out.new ≡ out.old ++ spec.arguments C.case_type given.now kind (option_copied sig.entry) args.now) }
{
    match sig {
        None => Ok(()),
        Some(sig) => match kind {
            CallKind::Never => Ok(()),
            CallKind::Partial => ask_given(alloc, sig.marks.as_slice(), args, given, out),
            CallKind::Whole => ask_given(alloc, sig.marks.as_slice(), args, given, out),
        },
    }
}

/// The application of a parameter begins, where it has a type: whether it has is answered.
#[cycle(ask)]
fn ask_applying<C: CaseTypes>(
    alloc: Global,
    place: u32,
    function: Option<u32>,
    run: bool,
    args: &[Expr<Placed>],
    given: &Given<C>,
    out: &mut List<Demand<u32>>,
) -> Result<bool, NoMemory>
    requires { scene.fits given.now }
    ensures there { IfOk result (λ r. r ≡ is_some function) }
    ensures out { OnOk result (out.new ≡ out.old ++ spec.applying C.case_type given.now place function run args.now) }
{
    match function {
        None => {
            never(out)?;
            Ok(false)
        }
        Some(function) => {
            fits_application(alloc, place, function, run, args, out)?;
            ask_applied(alloc, args, given, out)?;
            Ok(true)
        }
    }
}

/// What an expression asks where it stands so.
#[cycle(ask)]
pub fn ask_expr<C: CaseTypes>(
    alloc: Global,
    e: &Expr<Placed>,
    stand: Stand,
    given: &Given<C>,
    out: &mut List<Demand<u32>>,
) -> Result<(), NoMemory>
    requires { scene.fits given.now }
    ensures { OnOk result (out.new ≡ out.old ++ spec.asked stand (scene.said C.case_type given.now e.now)) }
{
    ask_form(alloc, e.form.get(), &e.note, stand, given, out)
}

#[cycle(ask)]
fn ask_form<C: CaseTypes>(
    alloc: Global,
    form: &Form<Placed>,
    note: &Placed,
    stand: Stand,
    given: &Given<C>,
    out: &mut List<Demand<u32>>,
) -> Result<(), NoMemory>
    requires { scene.fits given.now }
    ensures { OnOk result (out.new ≡ out.old ++ spec.asked stand (scene.said_form C.case_type given.now form.now note.now)) }
{
    let place = note.1;
    let name = given.place(note.0.bound);
    match form {
        Form::Leaf(leaf) => fits_one(alloc, place, literal_type(leaf), out),
        Form::Case(_) => ask_constructor(alloc, note, out),
        Form::Var(_) => ask_use(alloc, note, stand, given, out),
        Form::Last(_) => ask_last(alloc, place, name, out),
        Form::Asked(_) => ask_presence(alloc, place, name, out),
        Form::Op(op, args) => {
            let agree = fits_operator(alloc, place, *op, args.as_slice(), out)?;
            if agree {
                ask_streams(alloc, args.as_slice(), given, out)?;
            }
            Ok(())
        }
        Form::Tuple(parts) => {
            fits_tuple(alloc, place, parts, out)?;
            ask_streams(alloc, parts.as_slice(), given, out)
        }
        Form::Pre(e) => {
            fits_two(alloc, (place, any()), (e.note.1, any()), out)?;
            ask_expr(alloc, e, Stand::Stream, given, out)
        }
        Form::Fby(a, b) => {
            fits_three(
                alloc,
                (place, any()),
                (a.note.1, any()),
                (b.note.1, any()),
                out,
            )?;
            ask_expr(alloc, a, Stand::Stream, given, out)?;
            ask_expr(alloc, b, Stand::Stream, given, out)
        }
        Form::Init(a, b) => {
            fits_three(
                alloc,
                (place, any()),
                (a.note.1, any()),
                (b.note.1, any()),
                out,
            )?;
            ask_expr(alloc, a, Stand::Stream, given, out)?;
            ask_expr(alloc, b, Stand::Stream, given, out)
        }
        Form::When(e, _, case) => {
            fits_sampled(alloc, name, given.case_type(*case), place, e.note.1, out)?;
            ask_expr(alloc, e, Stand::Stream, given, out)
        }
        Form::Merge(_, all) => {
            fits_merge(alloc, place, all.as_slice(), out)?;
            ask_branches(alloc, name, all.as_slice(), given, out)
        }
        Form::Call {
            run,
            args,
            every,
            ..
        } => match note.0.bound {
            Binder::Def(k) => {
                let sig = given.sigs.get(k as usize);
                let args = args.as_slice();
                let alone = every.is_none();
                let kind = ask_opened(alloc, place, sig, *run, args, alone, stand, given, out)?;
                if is_whole(kind) {
                    ask_restarts(alloc, every, given, out)?;
                    close_call(alloc, place, sig, stand, out)?;
                }
                Ok(())
            }
            Binder::Param(_) => {
                let args = args.as_slice();
                let there = ask_applying(alloc, place, name, *run, args, given, out)?;
                if there {
                    ask_restarts(alloc, every, given, out)?;
                }
                Ok(())
            }
            Binder::Nothing => never(out),
            Binder::Var(_) => never(out),
            Binder::Case(_, _) => never(out),
        },
    }
}
