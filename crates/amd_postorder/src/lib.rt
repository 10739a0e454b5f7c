//! Trees in postorder: the numbers of the nodes of one tree, and those of a forest of elements. Their links and numbers
//! are plain integers, or the figures and words of a workspace.
#![tactic(auto)]

pub mod link;
pub mod number;
pub mod post_tree;
pub mod postorder;
