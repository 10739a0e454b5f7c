//! The edges of a matrix: the walk that meets each edge of a pattern once, and the lists of the neighbours of each row
//! in the order in which it meets them. Source: Amestoy, Davis and Duff 2004.
#![tactic(auto)]

pub mod lists;
pub mod walk;
