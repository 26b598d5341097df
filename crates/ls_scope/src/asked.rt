//! What the expressions and tests of a body ask of the scope, and their notes.

ghost use Rattle.std.specs.Prelude.{◌≡◌, [], ◌∷◌, ◌++◌, map, Bool, List, ℕ, IfOk, OnOk};
ghost use Rattle.scope_rules.specs.Faults as spec;
ghost use Rattle.scope_rules.specs.Resolved.{reading_uses};
ghost use Rattle.scope_rules.specs.Places.{joined};
ghost use Rattle.scope_rules.specs.declared.claims.Claim as claim_type;
ghost use Rattle.std.specs.List.{list_any};
ghost use Rattle.ls_scope.specs.Sight.{sight_of};
ghost use Rattle.ls_scope.specs.Told.{told};

use crate::claims::add_claims;
use crate::contents::Reading;
use crate::sight::{PlaceSight, Sight};
use crate::uses::add_uses;
use ls_base::{List, NoMemory, NoteCopy};
use ls_sig::Use;
use scope_rules::{Asked, Claim, Stand};
use std::alloc::Global;

fn asked_by<N>(
    alloc: Global,
    sight: &Sight<'_>,
    reading: &Reading<'_, N>,
) -> Result<Asked, NoMemory>
    ensures { IfOk result (λ r. r ≡ spec.asked_by (sight_of sight.now) (told reading.now)) }
{
    let mut claims = List::new(alloc);
    match reading {
        Reading::Reads(e, stand, place) => {
            let what = PlaceSight {
                sight: *sight,
                place: place.as_slice(),
            };
            add_claims(alloc, *e, *stand, &what, &mut claims)?;
            let place = place.copy(alloc)?;
            Ok(Asked { claims, place })
        }
        Reading::Tests(x, place) => {
            let binder = sight.binder(alloc, place.as_slice(), *x)?;
            claims.push(Claim::Named(binder, *x, Stand::Asked))?;
            let place = place.copy(alloc)?;
            Ok(Asked { claims, place })
        }
    }
}

/// What is asked of the scope, in the order of the text.
pub fn asks_of<N>(
    alloc: Global,
    sight: &Sight<'_>,
    readings: &[Reading<'_, N>],
) -> Result<List<Asked>, NoMemory>
    ensures { IfOk result (λ r. r ≡ map (spec.asked_by (sight_of sight.now)) (map told readings.now)) }
{
    let mut done = List::new(alloc);
    for reading in readings {
        let asked = asked_by(alloc, sight, reading)?;
        done.push(asked)?;
    }
    Ok(done)
}

fn add_reading_uses<N>(
    alloc: Global,
    sight: &Sight<'_>,
    reading: &Reading<'_, N>,
    done: &mut List<Use>,
) -> Result<(), NoMemory>
    ensures { OnOk result (done.new ≡ done.old ++ reading_uses (sight_of sight.now) sight.now.known.now (told reading.now)) }
{
    match reading {
        Reading::Reads(e, _, place) => {
            let what = PlaceSight {
                sight: *sight,
                place: place.as_slice(),
            };
            add_uses(alloc, *e, &what, done)
        }
        Reading::Tests(_, _) => Ok(()),
    }
}

/// The notes of a body, in the order of the text.
pub fn uses_of<N>(
    alloc: Global,
    sight: &Sight<'_>,
    readings: &[Reading<'_, N>],
) -> Result<List<Use>, NoMemory>
    ensures { IfOk result (λ r. r ≡ joined (map (reading_uses (sight_of sight.now) sight.now.known.now) (map told readings.now))) }
{
    let mut done = List::new(alloc);
    for reading in readings {
        add_reading_uses(alloc, sight, reading, &mut done)?;
    }
    Ok(done)
}

/// What tells whether a claim is at fault at a place.
pub trait ClaimFault {
    ghost fault: { Self → List (ℕ × ℕ) → claim_type.Claim → Bool };

    fn is_fault(&self, alloc: Global, place: &[(u32, u32)], claim: &Claim) -> Result<bool, NoMemory>
        ensures { IfOk result (λ r. r ≡ fault self.now place.now claim.now) };
}

fn any_here<F: ClaimFault>(
    alloc: Global,
    by: &F,
    place: &[(u32, u32)],
    all: &[Claim],
) -> Result<bool, NoMemory>
    ensures { IfOk result (λ r. r ≡ list_any (F.fault by.now place.now) all.now) }
{
    for claim in all {
        if by.is_fault(alloc, place, claim)? {
            return Ok(true);
        }
    }
    Ok(false)
}

/// Whether some claim is at fault.
pub fn any_claim<F: ClaimFault>(alloc: Global, by: &F, asks: &[Asked]) -> Result<bool, NoMemory>
    ensures { IfOk result (λ r. r ≡ spec.any_claim (F.fault by.now) asks.now) }
{
    for asked in asks {
        if any_here(alloc, by, asked.place.as_slice(), asked.claims.as_slice())? {
            return Ok(true);
        }
    }
    Ok(false)
}
