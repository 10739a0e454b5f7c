//! Reads inputs of an ordering: cases, which are text, and matrix files, which are binary.
//!
//! A case is one item a line, its numbers parted by white space:
//!
//!     CASE k        the number of the case; it comes first
//!     N n           the number of rows and columns
//!     T t           the dense row parameter in thousandths, an `i32`; left out, it is 10000
//!     AGG 0|1       whether absorption is aggressive; left out, it is
//!     AP ..         the pointers
//!     AI ..         the rows
//!     HOLD ..       for each row 1 where it is held last, else 0; left out, no row is
//!     PERM ..       a permutation, under which the columns of the factor are asked for; it may be left out
//!     ROOM r        how many entries these columns may have; it may be left out
//!     END           it comes last
//!
//! Numbers are those that `parse::<i64>` takes: a sign or none, and decimal digits. The lists may be empty. Between
//! `CASE` and `END` the items may come in any order, each of them once. Lines without a word may stand anywhere.
//! Refused are: a first word that is no keyword; a number that is no number or does not fit, as a mark other than 0 and
//! 1, and more or fewer numbers than the keyword takes; an item that was there already, and `CASE` inside a case; an
//! item outside of a case; `END` where `N`, `AP` or `AI` is missing; an end of the input inside a case; and a line of
//! more than 16,777,216 bytes, of which no more is read than that and a block of 131,072. That the lists are as long as
//! the others say is not asked for.
#![tactic(auto)]

pub mod cases;
pub mod faults;
pub mod items;
pub mod matrix;
pub mod reader;
