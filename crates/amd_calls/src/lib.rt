//! What the calls for other languages share, over any allocator: an ordering, the counts and the columns of a factor,
//! written into a caller's arrays; the same in a block that the caller lends; the records that cross, and the numbers
//! of the statuses.
#![tactic(auto)]

pub mod bytes;
pub mod counting;
pub mod factor_within;
pub mod factors;
pub mod matrix;
pub mod records;
pub mod within;
pub mod writing;
