//! The exact columns of the factor of a sparse matrix: where its entries below the diagonal stand, and the elimination
//! tree.
//!
//! [`columns`] takes the pattern of a square matrix by columns and any order of its rows; [`columns_into`] writes the
//! entries into numbers of the caller. [`counts`] counts the entries of the columns, in memory that does not grow with
//! them. [`needs::need_of`] sums what a factor needs. A [`FactorWorkspace`] is memory that is taken once: its calls
//! write the same counts and columns, and ask for none. [`supernodes`] takes what `columns` takes but a room, and
//! returns the columns by supernodes; [`expand`] makes these columns from them.
//!
//! No call here makes an order: the crate `amd_symbolic` has those that do.
//!
//! The modules, each over those before it:
//!
//! - `places`, `arcs`, `turning`, `neighbours`, `ordering`: the place of each row in an order; the lists of the earlier
//!   and of the later neighbours of each place.
//! - `numbers`, `children`, `gathering`, `merge`, `column`, `fill`: the columns in slices, each from those of its
//!   children.
//! - `forms`, `factor`, `into`: [`columns`], [`columns_into`]: the input is tested, the lists are made, memory is
//!   taken, and `fill` writes.
//! - `tree`, `ranks`, `meeting`, `sweep`, `sizes`: how many entries the columns have, in slices: the elimination tree,
//!   its postorder, and a sweep over all arcs.
//! - `needs`, `counted`, `sharing`, `counting`: what a factor needs; [`counts`], by columns that share their entries.
//! - `partition`, `below`, `rows_below`, `supernodal`: [`supernodes`]: the places are cut into supernodes by the
//!   counts, and the rows climb through these; [`supernode_partition`] and [`write_rows`] do the two apart.
//! - `sizing`, `expanding`: [`supernode_sizes`]: how much room they need; [`expand`]: their columns.
//! - `supernode_laws`: a law of the supernodes.
//! - `entrance`, `refusal`, `lent`, `inside`, `workspace`: [`FactorWorkspace`]: the input is tested, and counts and
//!   columns are made with all lists in one block of numbers.
//! - `laws`: laws of the factor and on the contracts above.
#![tactic(auto)]

pub mod arcs;
pub mod below;
pub mod children;
pub mod column;
pub mod counted;
pub mod counting;
pub mod entrance;
pub mod expanding;
pub mod factor;
pub mod fill;
pub mod forms;
pub mod gathering;
pub mod inside;
pub mod into;
pub mod laws;
pub mod lent;
pub mod meeting;
pub mod merge;
pub mod needs;
pub mod neighbours;
pub mod numbers;
pub mod ordering;
pub mod partition;
pub mod places;
pub mod ranks;
pub mod refusal;
pub mod rows_below;
pub mod sharing;
pub mod sizes;
pub mod sizing;
pub mod supernodal;
pub mod supernode_laws;
pub mod sweep;
pub mod thinning;
pub mod tree;
pub mod turning;
pub mod workspace;

pub use counted::Counts;
pub use counting::counts;
pub use expanding::expand;
pub use factor::{Factor, Fault, columns};
pub use into::{Frame, columns_into};
pub use refusal::Refusal;
pub use rows_below::{Partitioned, Supernodes, write_rows};
pub use sizing::{SupernodeSizes, supernode_sizes};
pub use supernodal::{supernode_partition, supernodes};
pub use workspace::{FactorWorkspace, factor_bytes};
