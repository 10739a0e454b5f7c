//! The demos of the ordering, each a core that writes to a writer and returns the exit status. A program over each of
//! them hands in standard output.
#![tactic(auto)]

pub mod can_24;
pub mod demo;
mod exact;
pub mod jumbled;
mod listing;
pub mod matrix;
mod numbers;
pub mod order;
mod outcome;
mod plot;
pub mod simple;
