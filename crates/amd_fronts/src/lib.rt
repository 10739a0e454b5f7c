//! The front of a pivot: the rows of each element outside it, counted down (`outside`), its classes with their lists
//! renewed and their bounds summed up (`fronts`), and both in turn (`turning`). Source: Amestoy, Davis and Duff 1996
//! and 2004.
#![tactic(auto)]

pub mod fronts;
pub mod outside;
pub mod turning;
