//! The library in memory that a caller lends: `order`, `order_holding`, `counts` and `columns` for `int32_t`
//! ([`int32`]), with no allocator of the machine's. It serves where there is no `malloc`, as in a browser.
//!
//! A slice crosses as a pointer and a length, and a record by its address. Each call takes the first bytes of its
//! memory for its lists and gives none back, so the memory is lent for good: what a call leaves there means nothing.
#![tactic(auto)]

pub mod int32;
pub mod int64;
