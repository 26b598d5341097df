//! The rules of initialisation, after Colaço and Pouzet (STTT 2004), and their laws.
#![tactic(auto)]

pub mod laws;
