//! The rounds of an elimination that keeps all lists in one workspace, which the caller lends: they ask for no memory.
//! A round joins the parts in `amd_elements`, `amd_fronts` and `amd_merging`; the contracts say which elimination the
//! workspace stands for.
#![tactic(auto)]

pub mod packing;
pub mod pivot;
pub mod round;
