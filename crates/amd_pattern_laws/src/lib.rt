//! Column forms that have the same pairs, or transposed ones, have the same graph and the same figures. Lemmas alone:
//! no code here runs. Source: Amestoy, Davis and Duff 2004 (the pattern of `A + A'`).
#![tactic(auto)]
