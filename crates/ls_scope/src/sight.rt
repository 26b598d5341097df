//! What is in sight at the places of a definition.

ghost use Rattle.std.specs.Prelude.{◌≡◌, IfOk};
ghost use Rattle.scope_rules.specs.Claims as claims;
ghost use Rattle.scope_rules.specs.Faults as spec;
ghost use Rattle.ls_scope.specs.Sight.{sight_of};

use crate::claims::Binders;
use crate::known::Known;
use crate::numbers::Numbers;
use crate::variables::Variables;
use ls_base::NoMemory;
use ls_sig::Binder;
use scope_rules::Applied;
use std::alloc::Global;

/// The names of the parameters, the variables, and the earlier definitions.
#[derive(Clone, Copy)]
pub struct Sight<'a> {
    pub params: &'a Numbers,
    pub vars: &'a Variables,
    pub known: &'a Known,
}

/// What is in sight at a place, which is the arms around it.
#[derive(Clone, Copy)]
pub struct PlaceSight<'a> {
    pub sight: Sight<'a>,
    pub place: &'a [(u32, u32)],
}

impl<'a> Sight<'a> {
    // What a name means that is no variable.
    fn outer(&self, x: u32) -> Binder
        ensures { result ≡ spec.param_binder (spec.place_of x self.now.params.now) (spec.def_binder (spec.place_of x (spec.titles self.now.known.now.defs))) }
    {
        match self.params.place(x) {
            Some(k) => Binder::Param(k),
            None => match self.known.def_place(x) {
                Some(k) => Binder::Def(k),
                None => Binder::Nothing,
            },
        }
    }

    /// The binder of a name at a place.
    pub fn binder(&self, alloc: Global, place: &[(u32, u32)], x: u32) -> Result<Binder, NoMemory>
        ensures { IfOk result (λ b. b ≡ spec.binder_at (sight_of self.now) place.now x) }
    {
        match self.vars.place_seen(alloc, x, place)? {
            Some(k) => Ok(Binder::Var(k)),
            None => Ok(self.outer(x)),
        }
    }

    /// What a name of this binder means where it is applied.
    pub fn applied(&self, binder: Binder) -> Applied<'a>
        ensures { claims.told_head result ≡ claims.head_by self.now.known.now.defs binder }
    {
        match binder {
            Binder::Def(k) => match self.known.def(k) {
                Some(def) => Applied::Def(def),
                None => Applied::Other,
            },
            Binder::Param(_) => Applied::Param,
            Binder::Nothing => Applied::Other,
            Binder::Var(_) => Applied::Other,
            Binder::Case(_, _) => Applied::Other,
        }
    }

    /// Whether the definition that a name is bound to at a place answers a signal.
    pub fn answers(&self, alloc: Global, place: &[(u32, u32)], x: u32) -> Result<bool, NoMemory>
        ensures { IfOk result (λ b. b ≡ spec.head_answers (spec.head_at (sight_of self.now) place.now x)) }
    {
        let binder = self.binder(alloc, place, x)?;
        Ok(match self.applied(binder) {
            Applied::Def(def) => def.answers,
            Applied::Param => false,
            Applied::Other => false,
        })
    }

    /// What a constructor means.
    pub fn case(&self, c: u32) -> Binder
        ensures { result ≡ spec.case_binder (spec.case_place 0 self.now.known.now.enums c) }
    {
        match self.known.case_place(c) {
            Some(place) => Binder::Case(place.0, place.1),
            None => Binder::Nothing,
        }
    }
}

impl<'a> Binders for PlaceSight<'a> {
    ghost use Rattle.scope_rules.specs.Faults as spec;
    ghost use Rattle.ls_scope.specs.Sight.{sight_of};

    ghost bound = { λ it. spec.binder_at (sight_of it.sight) it.place.now };

    ghost cases = { λ it c. spec.case_binder (spec.case_place 0 it.sight.known.now.enums c) };

    ghost defs = { λ it. it.sight.known.now.defs };

    fn bound(&self, alloc: Global, x: u32) -> Result<Binder, NoMemory> {
        self.sight.binder(alloc, self.place, x)
    }

    fn case(&self, c: u32) -> Binder {
        self.sight.case(c)
    }

    fn applied(&self, binder: Binder) -> Applied<'_> {
        self.sight.applied(binder)
    }
}
