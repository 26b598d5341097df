//! What names mean at a place of a definition.

use crate::hints::{Hint, Told};
use ls_ast::{Def, DefOf, Pat};
use ls_base::{Boxed, List, Name, Names, NoMemory, NoteCopy};
use ls_places::{Named, Variable};
use ls_sig::Binder;
use ls_terms::ClockTerm;
use std::alloc::Global;

/// What a definition's names may mean.
#[derive(Clone, Copy)]
pub struct Scope<'a> {
    /// The name of the definition.
    pub def: Name,
    /// The definitions of the file, and its names.
    pub defs: &'a [Def],
    pub names: &'a Names,
    pub params: &'a [Pat],
    /// The variables of the body.
    pub vars: &'a [Variable],
    /// What the clock names of the body stand for.
    pub clocks: &'a [Named],
    pub hints: &'a [Hint<'a>],
    pub alloc: Global,
}

/// A place in a body: its clock, and the arms around it, outermost first.
#[derive(Drop)]
pub struct At {
    pub ck: ClockTerm,
    pub arms: List<(u32, u32)>,
}

/// A clock where it is sampled on a case of a clock name.
pub fn sampled(alloc: Global, ck: &ClockTerm, m: u32, case: u32) -> Result<ClockTerm, NoMemory> {
    let inner = Boxed::new(alloc, ck.copy(alloc)?)?;
    Ok(ClockTerm::On(inner, m, case))
}

impl At {
    pub fn copy(&self, alloc: Global) -> Result<At, NoMemory> {
        Ok(At {
            ck: self.ck.copy(alloc)?,
            arms: self.arms.copy(alloc)?,
        })
    }

    /// The place where nothing is around.
    pub fn top(alloc: Global) -> At {
        At {
            ck: ClockTerm::Var(0),
            arms: List::new(alloc),
        }
    }

    /// In the arm of a block with this clock name.
    pub fn within(&self, alloc: Global, m: u32, arm: u32) -> Result<At, NoMemory> {
        let mut arms = self.arms.copy(alloc)?;
        arms.push((m, arm))?;
        Ok(At {
            ck: sampled(alloc, &self.ck, m, arm)?,
            arms,
        })
    }
}

/// Whether these arms begin those.
fn begin(list: &[(u32, u32)], arms: &[(u32, u32)]) -> bool {
    if list.len() > arms.len() {
        return false;
    }
    for (a, b) in list.iter().zip(arms) {
        if a.0 != b.0 || a.1 != b.1 {
            return false;
        }
    }
    true
}

/// The number of the innermost variable of a name that is seen in these arms.
fn variable(x: Name, arms: &[(u32, u32)], vars: &[Variable]) -> Option<u32> {
    let mut found = None;
    let mut depth = 0;
    let mut k: u32 = 0;
    for v in vars {
        let inner = v.list.len() >= depth;
        if inner && v.name == x.0 && begin(v.list.as_slice(), arms) {
            found = Some(k);
            depth = v.list.len();
        }
        k = k.saturating_add(1);
    }
    found
}

/// Counts the names of a pattern before x; the second tells whether x is among them.
fn count_names(x: Name, pat: &Pat, count: u32) -> (u32, bool) {
    match pat {
        Pat::Any | Pat::Unit => (count, false),
        Pat::Var(y) => {
            if *y == x {
                return (count, true);
            }
            (count.saturating_add(1), false)
        }
        Pat::Tuple(parts) => {
            let mut count = count;
            for part in parts.as_slice() {
                let (next, found) = count_names(x, part, count);
                if found {
                    return (next, true);
                }
                count = next;
            }
            (count, false)
        }
    }
}

/// The number of the name of a parameter, or of a part of one.
fn parameter(x: Name, params: &[Pat]) -> Option<u32> {
    let mut count = 0;
    for pat in params {
        let (next, found) = count_names(x, pat, count);
        if found {
            return Some(next);
        }
        count = next;
    }
    None
}

/// The number of the parameter that has this name, which is its clock name.
fn whole_parameter(x: Name, params: &[Pat]) -> Option<u32> {
    let mut k: u32 = 0;
    for pat in params {
        if matches!(pat, Pat::Var(y) if *y == x) {
            return Some(k);
        }
        k = k.saturating_add(1);
    }
    None
}

/// The number of the enumeration of a constructor, and its place there.
pub fn constructor(x: Name, defs: &[Def]) -> Option<(u32, u32)> {
    let mut number: u32 = 0;
    for def in defs {
        if let DefOf::Cases { cases, .. } = def {
            let mut place: u32 = 0;
            for name in cases.as_slice() {
                if *name == x {
                    return Some((number, place));
                }
                place = place.saturating_add(1);
            }
            number = number.saturating_add(1);
        }
    }
    None
}

/// The number of the `let` definition of a name.
pub fn definition_number(x: Name, defs: &[Def]) -> Option<u32> {
    let mut k: u32 = 0;
    for d in defs {
        if let DefOf::Let { name, .. } = d {
            if *name == x {
                return Some(k);
            }
            k = k.saturating_add(1);
        }
    }
    None
}

/// The place of the `clock` equation of a variable among the clock names of the body.
fn clock_place(var: u32, clocks: &[Named]) -> u32 {
    let mut k: u32 = 0;
    for c in clocks {
        if matches!(c, Named::Clock(y) if *y == var) {
            return k;
        }
        k = k.saturating_add(1);
    }
    k
}

impl<'a> Scope<'a> {
    /// What is told of a name of the definition.
    pub fn told(&self, x: Name) -> Told<'a> {
        for hint in self.hints {
            let same_definition = self.names.find(hint.def) == Some(self.def);
            if same_definition && self.names.find(hint.name) == Some(x) {
                return hint.told;
            }
        }
        Told::Here
    }

    /// What a name means in these arms.
    pub fn binder(&self, x: Name, arms: &[(u32, u32)]) -> Binder {
        if let Some((number, place)) = constructor(x, self.defs) {
            return Binder::Case(number, place);
        }
        if let Some(k) = variable(x, arms, self.vars) {
            return Binder::Var(k);
        }
        if let Some(k) = parameter(x, self.params) {
            return Binder::Param(k);
        }
        match definition_number(x, self.defs) {
            Some(k) => Binder::Def(k),
            None => Binder::Nothing,
        }
    }

    /// The number of arms around the list that binds a name, as it is seen in these arms.
    pub fn list_length(&self, x: Name, arms: &[(u32, u32)]) -> usize {
        match variable(x, arms, self.vars) {
            Some(k) => match self.vars.get(k as usize) {
                Some(v) => v.list.len(),
                None => 0,
            },
            None => 0,
        }
    }

    /// The number of the first clock name that is no parameter's.
    pub fn first_name(&self) -> u32 {
        match u32::try_from(self.params.len()) {
            Ok(first) => first,
            Err(_) => 0,
        }
    }

    /// The number of the clock name of a condition.
    pub fn clock_name(&self, x: Name, arms: &[(u32, u32)]) -> u32 {
        if let Some(var) = variable(x, arms, self.vars) {
            return self
                .first_name()
                .saturating_add(clock_place(var, self.clocks));
        }
        match whole_parameter(x, self.params) {
            Some(k) => k,
            None => 0,
        }
    }
}
