//! The types that callers see, with what may be rested on of their copies, and the numbers of an ordering: reading of
//! a caller's integers, the threshold of dense rows, the figures of fronts, and permutations. Source: AMD user guide.
#![tactic(auto)]

pub mod amd;
pub mod copies;
pub mod dense;
pub mod figures;
pub mod held;
pub mod index;
pub mod internal;
pub mod permutations;
pub mod signed;
