//! What a place of a program asks of the types around it.

use ls_base::List;
use ls_terms::{Kind, TypeTerm};

/// What is asked of the types of some places. X is what stands for the type of a place: a type, or
/// the number of the place.
#[derive(Debug, Drop)]
pub enum Demand<X> {
    /// These types are one instance of these schemes, whose variables stand for data.
    Fits(List<(X, TypeTerm)>),
    /// The two types are the same.
    Equal(X, X),
    /// The first is the function from these to the last.
    Function(X, Kind, List<X>, X),
    /// No types serve.
    Never,
}
