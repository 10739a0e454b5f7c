//! The engine of an ordering: it eliminates the rows of a matrix by rounds in one workspace, lists the blocks of the
//! tree that comes of them in postorder, and tells the figures of the run (`amd_1`, and for lists that are laid
//! `amd_2`, over `fresh`, `running` and `ended`). Re-exported are the types that callers see, the numbers below, the
//! postorder of trees, and the law that engines with one contract return the same. Source: Amestoy, Davis and Duff 1996
//! and 2004.
#![tactic(auto)]

pub mod amd_1;
pub mod amd_2;
pub mod ended;
pub mod fresh;
pub mod rows;
pub mod running;

pub use amd_engine_law::laws;
pub use amd_postorder::{post_tree, postorder};
pub use amd_types::{amd, internal};
