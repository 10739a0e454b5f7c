//! The plain engine: an elimination that keeps the lists of the quotient graph in vectors, for each class its elements
//! and its variables, for each element its members. The record (`work`), its start (`start`), the parts of a round
//! (`marks`, `by_bound`, `absorption`, `merging`, `bounds`), the rounds until no row is live (`rounds`), the rows held
//! last (`held`), the listing (`listed`), and the call (`plain`). It is the second engine, and returns what
//! `amd_engine` returns: a law of `amd_engine_law` says so. An `Err` stands for a refused request. No contract says
//! when it comes; what lists and records then hold is mostly left open. Source: Amestoy, Davis and Duff 1996 and 2004.
#![tactic(auto)]

pub mod absorption;
pub mod bounds;
pub mod by_bound;
pub mod held;
pub mod listed;
pub mod marks;
pub mod merging;
pub mod plain;
pub mod rounds;
pub mod start;
pub mod work;
