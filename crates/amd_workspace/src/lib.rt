//! What stands before and behind the rounds of an elimination in one workspace: the filling of fresh lists, the laying
//! of the lists of neighbours, the start, and what the record says at the end.
#![tactic(auto)]

pub mod bands;
pub mod copying;
pub mod ending;
pub mod filling;
pub mod laying;
pub mod lists;
pub mod lower;
pub mod rows;
pub mod sampling;
pub mod starting;
