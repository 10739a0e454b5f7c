//! What the tests of an ordering stand on: an allocator that counts requests and refuses a chosen one, writers with a
//! fault at a chosen call, families of inputs, choices of a caller, the numbers of a record, and the definitions of an
//! input, of its pattern and of a factor in a plain, slow form to compare with.
#![tactic(auto)]

pub mod checks;
pub mod choices;
pub mod factors;
pub mod families;
pub mod forests;
pub mod inputs;
pub mod plain;
pub mod records;
pub mod refusing;
pub mod writers;
