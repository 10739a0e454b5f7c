//! The input of an ordering: whether it is a column form, its transpose with sorted columns, and the degrees and
//! figures of its pattern. Source: AMD user guide; Amestoy, Davis and Duff 2004.
#![tactic(auto)]

pub mod aat;
mod cells;
mod lower;
mod mirrors;
pub mod preprocess;
pub mod valid;
