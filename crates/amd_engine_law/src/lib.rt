//! What an engine returns for a matrix, in `specs/Engine`, for both engines alike; how the parts of such an answer
//! follow from a run, in `proofs/EngineLaw`; and the law that two engines with one contract return the same (`laws`).
//! No code runs here. The rules of the run are those of `specs/Quotient` of `amd_model`.
#![tactic(auto)]

pub mod laws;
