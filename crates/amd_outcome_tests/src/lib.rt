//! Tests of what comes of an ordering. The exact factor through its calls: worked inputs with their answers, inputs and
//! orders that are refused, refused memory, and a comparison with the factor as searches for paths find it; these
//! answers were worked by hand, or come from an independent program that follows the definition, which is no part of
//! this repository. Inputs in each of the twelve integer types, up to the ends of their ranges. And what is printed:
//! the texts of `control` and `info`, and the demos; these texts are those of the Rust crate's demos, but for the line
//! on symmetry, which follows the definition, and the exact factor, which those demos have not; the others have the
//! same form, with sums worked by hand.
#![tactic(auto)]

#[cfg(test)]
mod checks;
#[cfg(test)]
mod tests;
