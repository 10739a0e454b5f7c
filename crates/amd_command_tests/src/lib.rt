//! Tests of the command `rimopaku`: choices that are heard, what is written, writers with faults, refused memory, and
//! whole runs.
#![tactic(auto)]

#[cfg(test)]
mod checks;
#[cfg(test)]
mod tests;
