//! Tests of the ordering through its calls: worked inputs with their answers, hostile inputs, refused memory, rows held
//! last, and a comparison with the definitions in a plain form. The answers come from outside: worked by hand, from the
//! Rust crate's demos, or from the Rust crate `amd` and an independent program that follows the rules, which is no part
//! of this repository. Tests of what comes of an ordering are in the crate `amd_outcome_tests`.
#![tactic(auto)]

#[cfg(test)]
mod checks;
#[cfg(test)]
mod tests;
