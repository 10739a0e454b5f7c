//! Counts over lists of places: the parts of a list, sums over places that go up to a later one, and counts that are
//! read back as they were. Definitions and lemmas alone: no code here runs. Source: Liu 1986; Gilbert, Ng
//! and Peyton 1994 (counts of columns).
#![tactic(auto)]
