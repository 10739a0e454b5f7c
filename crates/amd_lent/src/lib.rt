//! Memory that a caller lends: as an allocator, which cuts pieces off one block and takes none back, and as lists that
//! lie in it and never ask for more.
#![tactic(auto)]

mod lent;
mod piece;

pub use lent::Lent;
pub use piece::Piece;
pub use std_alloc::vec::Lodged;
