//! What an approximate minimum degree ordering is: the definitions stand in `specs/`, and each law over them is the
//! contract of a public function of this crate, with an empty body. No code here runs.
//!
//! Source: Amestoy, Davis and Duff 1996 and 2004, the AMD user guide, George and Liu 1981.
#![tactic(auto)]

pub mod example_laws;
pub mod figure_laws;
pub mod forest_laws;
pub mod front_laws;
pub mod listing_laws;
pub mod ordering_laws;
pub mod quotient_laws;
pub mod run_laws;
pub mod sum_laws;
