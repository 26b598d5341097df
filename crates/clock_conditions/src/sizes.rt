//! The sizes of clocks.

ghost use Rattle.std.specs.Prelude.{◌≡◌, map, nat_le, nat_lt};
ghost use Rattle.clock_conditions.specs.Every.{left_after};
ghost use Rattle.clock_rules.specs.Terms.{limit};
ghost use Rattle.ls_terms.specs.Clocks.{size, sum};

use ls_terms::ClockTerm;

/// The greatest number of nodes of a clock.
const LIMIT: u32 = 4096;

/// Of so many nodes those that are left after a clock, if there are as many.
#[cycle(left)]
fn left(t: &ClockTerm, many: u32) -> Option<u32>
    ensures { result ≡ left_after many (size t.now) }
{
    match many.checked_sub(1) {
        None => None,
        Some(rest) => match t {
            ClockTerm::Var(_) => Some(rest),
            ClockTerm::On(of, _, _) => left(of.get(), rest),
            ClockTerm::Pointwise => Some(rest),
            ClockTerm::Arrow(all, to) => match left_all(all.as_slice(), rest) {
                None => None,
                Some(rest) => left(to.get(), rest),
            },
        },
    }
}

#[cycle(left)]
fn left_all(all: &[ClockTerm], many: u32) -> Option<u32>
    ensures { result ≡ left_after many (sum (map size all.now)) }
{
    let mut rest = many;
    for t in all {
        match left(t, rest) {
            None => return None,
            Some(less) => rest = less,
        }
    }
    Some(rest)
}

/// Whether a clock is within the limit.
pub fn is_small(t: &ClockTerm) -> bool
    ensures { result ≡ nat_le (size t.now) limit }
{
    left(t, LIMIT).is_some()
}

/// Whether a clock has fewer nodes than the limit.
pub fn is_smaller(t: &ClockTerm) -> bool
    ensures { result ≡ nat_lt (size t.now) limit }
{
    left(t, LIMIT - 1).is_some()
}
