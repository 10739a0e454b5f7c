//! What the calls for C alone do: the degrees of a matrix and its row form, the postorder of a forest, the elimination
//! of lists that are laid, and the supernodes of a factor, written into a caller's arrays.
#![tactic(auto)]

pub mod forests;
pub mod laid;
pub mod lent;
pub mod narrow;
pub mod patterns;
pub mod supernodal;
