//! Tests of what the command `rimopaku` reads: files of each kind, files at fault, texts that name rows, and the words
//! of the command line.
#![tactic(auto)]

#[cfg(test)]
mod checks;
#[cfg(test)]
mod tests;
