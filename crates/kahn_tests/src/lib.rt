//! Tests alone: the network of streams of whole programs, from their text to rows that are known by
//! hand.
#![tactic(auto)]

#[cfg(test)]
mod annotate;
#[cfg(test)]
mod automata;
#[cfg(test)]
mod blocks;
#[cfg(test)]
mod functions;
#[cfg(test)]
mod hints;
#[cfg(test)]
mod known;
#[cfg(test)]
mod rows;
#[cfg(test)]
mod run;
#[cfg(test)]
mod scope;
#[cfg(test)]
mod signals;
#[cfg(test)]
mod sizes;
#[cfg(test)]
mod streams;
