//! What the command `rimopaku` is asked for, and the files that it reads and writes: the words of the command line, the
//! rows or places that a text lists, the files of a run, and why a run ends early.
//!
//! What is read from a text, and what the options that were found choose, is told by contracts. What is tested alone:
//! which options there are (`request`), the files (`inputs`, `paths`, `putting`), what is told meanwhile (`progress`)
//! and what leads on after a message (`advice`). The matrix of a file is read by `amd_market`.
#![tactic(auto)]

pub mod advice;
pub mod causes;
pub mod held;
pub mod inputs;
pub mod limits;
pub mod list_faults;
pub mod listed;
pub mod listing;
pub mod numbers;
pub mod order_faults;
pub mod paths;
pub mod progress;
pub mod putting;
pub mod request;
pub mod sizes;
pub mod unreadable;
pub mod valued;
pub mod watched;
