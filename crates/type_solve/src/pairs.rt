//! The pairs of terms that are to be made equal for a list of demands.

ghost use Rattle.std.specs.Prelude.{◌≡◌, ◌+◌, ◌++◌, ◌∷◌, [], map, IfOk, OnOk};
ghost use Rattle.type_rules.specs.Demands as spec;

use crate::terms::{above_term, shift, variable};
use ls_base::{Boxed, List, NoMemory};
use ls_terms::TypeTerm;
use std::alloc::Global;
use term_unify::Pairs;
use type_rules::Demand;

fn fits_width(fits: &[(u32, TypeTerm)]) -> u64
    ensures { result ≡ spec.above (spec.scheme_vars fits.now) }
{
    let mut most = 0;
    for fit in fits {
        most = above_term(&fit.1).max(most);
    }
    most
}

/// How many variables of its own a demand needs.
fn width(demand: &Demand<u32>) -> u64
    ensures { result ≡ spec.width demand.now }
{
    match demand {
        Demand::Fits(list) => fits_width(list.as_slice()),
        Demand::Equal(_, _) => 0,
        Demand::Function(_, _, _, _) => 0,
        Demand::Never => 0,
    }
}

/// How many variables of their own the demands need. It is refused where these are too many to be
/// numbered.
pub fn widths(demands: &[Demand<u32>]) -> Result<u32, NoMemory>
    ensures { IfOk result (λ r. r ≡ spec.widths demands.now) }
{
    let mut total: u32 = 0;
    for demand in demands {
        total = more(total, width(demand))?;
    }
    Ok(total)
}

fn more(total: u32, width: u64) -> Result<u32, NoMemory>
    ensures { IfOk result (λ r. r ≡ total + width) }
{
    let sum = u64::from(total).saturating_add(width);
    if sum > u64::from(u32::MAX) {
        return Err(NoMemory);
    }
    Ok(sum as u32)
}

type Pair = (TypeTerm, TypeTerm);

fn add_fits(
    alloc: Global,
    own: u32,
    first: u32,
    fits: &[(u32, TypeTerm)],
    list: &mut List<Pair>,
) -> Result<(), NoMemory>
    ensures { OnOk result (list.new ≡ list.old ++ spec.fit_pairs own first fits.now) }
{
    for fit in fits {
        let place = variable(own, fit.0)?;
        let scheme = shift(alloc, first, &fit.1)?;
        list.push((place, scheme))?;
    }
    Ok(())
}

fn holes(alloc: Global, own: u32, places: &[u32]) -> Result<List<TypeTerm>, NoMemory>
    ensures { IfOk result (λ r. r ≡ map (spec.hole own) places.now) }
{
    let mut list = List::new(alloc);
    for place in places {
        list.push(variable(own, *place)?)?;
    }
    Ok(list)
}

fn add_demand(
    alloc: Global,
    own: u32,
    first: u32,
    demand: &Demand<u32>,
    list: &mut List<Pair>,
) -> Result<(), NoMemory>
    ensures { OnOk result (list.new ≡ list.old ++ spec.demand_pairs own first demand.now) }
{
    match demand {
        Demand::Fits(fits) => add_fits(alloc, own, first, fits.as_slice(), list),
        Demand::Equal(a, b) => list.push((variable(own, *a)?, variable(own, *b)?)),
        Demand::Function(place, kind, args, to) => {
            let args = holes(alloc, own, args.as_slice())?;
            let to = Boxed::new(alloc, variable(own, *to)?)?;
            list.push((variable(own, *place)?, TypeTerm::Arrow(*kind, args, to)))
        }
        Demand::Never => list.push((TypeTerm::Int, TypeTerm::Bool)),
    }
}

/// The pairs of the demands, whose own variables come first, as many as `own`; behind them each
/// place has its variable.
pub fn all_pairs(
    alloc: Global,
    own: u32,
    demands: &[Demand<u32>],
) -> Result<Pairs<TypeTerm>, NoMemory>
    ensures { IfOk result (λ r. r.list ≡ spec.pairs_from own 0 demands.now) }
{
    let mut list = List::new(alloc);
    let mut first: u32 = 0;
    for demand in demands {
        add_demand(alloc, own, first, demand, &mut list)?;
        first = more(first, width(demand))?;
    }
    Ok(Pairs { list })
}
