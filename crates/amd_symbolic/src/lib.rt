//! The exact columns of the factor of a sparse matrix, or their counts, under an order that is made here or handed in.
//!
//! [`analyze`] takes the order from [`amd::order`] and the room from its record, and [`analyze_holding`] does the same
//! with rows that a caller wants last. [`analyze_counts`] counts the entries of the columns under the order from
//! [`amd::order`], and [`analyze_counts_holding`] with rows held last.
//!
//! The calls that take an order are those of the crate `amd_factor`, which stand here too: [`columns`], [`counts`],
//! [`supernodes`] and their kin.
//!
//! The modules, each over those before it:
//!
//! - `analysis`: [`analyze`] and [`analyze_holding`]: an ordering, and the factor under it.
//! - `counting`: [`analyze_counts`] and [`analyze_counts_holding`].
//! - `laws`, `supernode_laws`: laws of the factor under an ordering.
#![tactic(auto)]

pub mod analysis;
pub mod counting;
pub mod laws;
pub mod supernode_laws;

pub use amd_factor::{
    Counts, Factor, FactorWorkspace, Fault, Frame, Partitioned, Refusal, SupernodeSizes,
    Supernodes, arcs, below, children, column, columns, columns_into, counted, counts, entrance,
    expand, expanding, factor, factor_bytes, fill, forms, gathering, inside, into, lent, meeting,
    merge, needs, neighbours, numbers, ordering, partition, places, ranks, refusal, rows_below,
    sizes, sizing, supernodal, supernode_partition, supernode_sizes, supernodes, sweep, thinning,
    tree, turning, workspace, write_rows,
};
pub use analysis::{analyze, analyze_holding};
pub use counting::{analyze_counts, analyze_counts_holding};
