//! The command `rimopaku`: it reads a matrix from a file, orders it, works out its exact factor or tells what it is,
//! and writes the permutation or the columns, figures, the permuted matrix, the elimination tree, a postorder of it,
//! the supernodes and pictures, as text or JSON. The program `rimopaku` hands in its arguments.
//!
//! What it is asked for and what it reads is the subject of the crate `amd_cli`; what it tells, that of `amd_report`.
//! Here are the orderings, the counts of the factor, the postorder, its fill in a picture (`drawn`), the permuted
//! matrix and the texts of the answers (`answers`), with contracts, and what is tested alone: what a picture has beside
//! its cells (`picture`), what is done first, and to which files the texts go (`program`).
#![tactic(auto)]

pub mod analysis;
pub mod answers;
pub mod drawn;
pub mod faults;
pub mod listed;
pub mod lists;
pub mod needs;
pub mod ordering;
pub mod permuted;
pub mod picture;
pub mod postorder;
pub mod program;
