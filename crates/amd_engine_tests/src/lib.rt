//! Tests of both engines and of the parts that an ordering stands on. Of the engines: the plain one with refused
//! memory, the one in place beside it, on worked matrices and with refused memory, and both beside `order` over
//! families of graphs. Of the parts: the workspace as it is laid, the lists of neighbours, the sides of rows, the
//! shares of fronts, the postorder of forests, the readers of cases, and the helpers of tests themselves. The answers
//! come from outside: worked by hand, or from the Rust crate `amd`.
#![tactic(auto)]

#[cfg(test)]
mod checks;
#[cfg(test)]
mod tests;
