//! Constructors of arms and branches.

ghost use Rattle.std.specs.Prelude.{◌≡◌, ◌&&◌, not, [], ◌∷◌, ◌++◌, map, is_some, IfOk, OnOk};
ghost use Rattle.std.specs.List.{list_any, list_all};
ghost use Rattle.scope_rules.specs.Places.{joined, option_list};
ghost use Rattle.scope_rules.specs.Faults as spec;
ghost use Rattle.ls_scope.specs.Arms as sets;

use crate::known::Known;
use crate::numbers::Numbers;
use ls_ast::Case;
use ls_base::{List, Name, Names, NoMemory};
use std::alloc::Global;

/// The cases of a list: those of bool, and the numbers of the other names.
#[derive(Debug, Drop)]
struct CaseSet {
    yes: bool,
    no: bool,
    names: Numbers,
}

fn contains(set: &CaseSet, case: &Case) -> bool
    ensures { result ≡ sets.in_set set.now case.now }
{
    match case {
        Case::True => set.yes,
        Case::False => set.no,
        Case::Of(name) => set.names.contains(name.0),
    }
}

fn add(case: &Case, set: &mut CaseSet) -> Result<(), NoMemory>
    ensures { OnOk result (sets.Gains set.old set.new case.now) }
{
    match case {
        Case::True => {
            set.yes = true;
            Ok(())
        }
        Case::False => {
            set.no = true;
            Ok(())
        }
        Case::Of(name) => set.names.push(name.0),
    }
}

fn empty(alloc: Global) -> CaseSet
    ensures { sets.HasJust [] result }
{
    CaseSet {
        yes: false,
        no: false,
        names: Numbers::new(alloc),
    }
}

/// Whether a case stands twice.
pub fn repeated_case(alloc: Global, cases: &[Case]) -> Result<bool, NoMemory>
    ensures { IfOk result (λ r. r ≡ spec.repeated_case cases.now) }
{
    let mut seen = empty(alloc);
    for case in cases {
        if contains(&seen, case) {
            return Ok(true);
        }
        add(case, &mut seen)?;
    }
    Ok(false)
}

fn set_of(alloc: Global, cases: &[Case]) -> Result<CaseSet, NoMemory>
    ensures { IfOk result (λ r. sets.HasJust cases.now r) }
{
    let mut set = empty(alloc);
    for case in cases {
        add(case, &mut set)?;
    }
    Ok(set)
}

fn is_spelled(names: &Names, text: &str, x: u32) -> bool
    ensures { result ≡ spec.spelled names.now text.now x }
{
    match names.spell(Name(x)) {
        Some(spelling) => text == spelling,
        None => false,
    }
}

fn arm_case(names: &Names, x: u32) -> Case
    ensures { result ≡ spec.arm_case names.now x }
{
    if is_spelled(names, "true", x) {
        Case::True
    } else if is_spelled(names, "false", x) {
        Case::False
    } else {
        Case::Of(Name(x))
    }
}

/// The constructors that the arms of a `match` name.
pub fn named_arms(
    alloc: Global,
    names: &Names,
    arms: &[Option<u32>],
) -> Result<List<Case>, NoMemory>
    ensures { IfOk result (λ r. r ≡ map (spec.arm_case names.now) (joined (map option_list arms.now))) }
{
    let mut done = List::new(alloc);
    for arm in arms {
        if let Some(x) = arm {
            done.push(arm_case(names, *x))?;
        }
    }
    Ok(done)
}

/// Whether a constructor is there.
pub fn is_there(known: &Known, case: Case) -> bool
    ensures { result ≡ spec.is_there known.now case }
{
    match case {
        Case::True => true,
        Case::False => true,
        Case::Of(name) => known.case_place(name.0).is_some(),
    }
}

/// Whether some case is of no constructor that is there.
pub fn any_missing(known: &Known, cases: &[Case]) -> bool
    ensures { result ≡ list_any (λ c. not (spec.is_there known.now c)) cases.now }
{
    for case in cases {
        if !is_there(known, *case) {
            return true;
        }
    }
    false
}

fn covers_names(set: &CaseSet, names: &[u32]) -> bool
    ensures { result ≡ list_all (sets.in_set set.now) (map spec.of_name names.now) }
{
    for name in names {
        if !contains(set, &Case::Of(Name(*name))) {
            return false;
        }
    }
    true
}

// Whether all constructors of the type of a case are in a set.
fn covers_type(known: &Known, case: Case, set: &CaseSet) -> bool
    ensures { result ≡ list_all (sets.in_set set.now) (spec.its_type known.now case) }
{
    match case {
        Case::True => set.no && set.yes,
        Case::False => set.no && set.yes,
        Case::Of(name) => match known.case_place(name.0) {
            None => true,
            Some(place) => match known.enumeration(place.0) {
                None => true,
                Some(all) => covers_names(set, all.1.as_slice()),
            },
        },
    }
}

/// Whether each constructor of the first one's type is named.
#[tactic(auto, using(crate::proofs::TwiceLaws::covered_first, crate::proofs::TwiceLaws::covered_none))]
pub fn covers(alloc: Global, known: &Known, cases: &[Case]) -> Result<bool, NoMemory>
    ensures { IfOk result (λ r. r ≡ spec.cover known.now cases.now) }
{
    match cases.first() {
        None => Ok(true),
        Some(first) => {
            let set = set_of(alloc, cases)?;
            Ok(covers_type(known, *first, &set))
        }
    }
}

fn all_named(arms: &[Option<u32>]) -> bool
    ensures { result ≡ list_all is_some arms.now }
{
    for arm in arms {
        if arm.is_none() {
            return false;
        }
    }
    true
}

fn is_open(
    alloc: Global,
    names: &Names,
    known: &Known,
    arms: &[Option<u32>],
) -> Result<bool, NoMemory>
    ensures { IfOk result (λ r. r ≡ sets.open_arms names.now known.now arms.now) }
{
    if !all_named(arms) {
        return Ok(false);
    }
    let cases = named_arms(alloc, names, arms)?;
    Ok(!covers(alloc, known, cases.as_slice())?)
}

/// Whether a `match` without a `_` arm leaves a constructor out.
pub fn any_open(
    alloc: Global,
    names: &Names,
    known: &Known,
    all: &[List<Option<u32>>],
) -> Result<bool, NoMemory>
    ensures { IfOk result (λ r. r ≡ list_any (sets.open_arms names.now known.now) all.now) }
{
    for arms in all {
        if is_open(alloc, names, known, arms.as_slice())? {
            return Ok(true);
        }
    }
    Ok(false)
}
