//! The listing at the end of an elimination: the assembly tree in postorder, and its inverse, without memory of its
//! own.
#![tactic(auto)]

pub mod blocks;
pub mod listing;
pub mod rows;
