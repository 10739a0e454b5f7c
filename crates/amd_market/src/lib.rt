//! Reads a square sparse matrix from a text: which pairs of a row and a column have an entry. The values are passed
//! over. The text is one of the Matrix Market:
//!
//!     %%MatrixMarket matrix coordinate FIELD SYMMETRY
//!     % notes
//!     rows columns entries
//!     row column value        a line for each entry; rows and columns count from 1
//!
//! or, for `array` in the place of `coordinate`,
//!
//!     %%MatrixMarket matrix array FIELD SYMMETRY
//!     rows columns
//!     value                   a line for each place, column by column; those that are not zero are entries
//!
//! `FIELD` is `real`, `double`, `integer`, `unsigned-integer`, `complex` or, but for an array, `pattern`; `SYMMETRY` is
//! `general`, `symmetric`, `skew-symmetric` or `hermitian`. The words of the first line are in letters of any case, and
//! a byte-order mark may stand before them. The words of a line are parted by white space. Numbers of rows, columns and
//! entries are those that `parse::<i64>` takes: a sign or none, and decimal digits. A value is one number that
//! `parse::<f64>` takes, two for `complex`, none for `pattern`; before its exponent may stand the `D` of Fortran. In a
//! symmetric, a skew-symmetric or a hermitian matrix each entry off the diagonal stands for its mirror image too; it
//! may stand on either side of the diagonal, but an array lists the lower triangle alone, a skew-symmetric one without
//! the diagonal. Lines without a word, and lines whose first word begins with `%`, may stand anywhere behind the first
//! line. Entries may come in any order, and more than once.
//!
//! Or it is a Harwell-Boeing or a Rutherford-Boeing file, which a second line with four or five numbers tells:
//!
//!     title
//!     lines lines-of-pointers lines-of-rows lines-of-values [lines-of-right-hand-sides]
//!     type rows columns entries [elements]
//!     (16I5) (16I5) ..        the formats of pointers, of rows, and of values
//!     ..                      a line about right-hand sides, where there are any
//!     pointers                from 1 on: where each column begins, and where the last one ends
//!     rows                    from 1 on, column by column
//!
//! The type is three letters in any case: `R`, `C`, `I`, `P` or `Q`; `U`, `R`, `S`, `Z` or `H`; and `A`. The last three
//! of the second letters say that each entry off the diagonal stands for its mirror image too. A format is `(kIw)` or
//! `(Iw)`: `k` numbers on a line, or one, in fields of `w` bytes. A point and a number may follow the width. A format
//! `(g(kIw))` has `g` such groups on a line, and with `(sX,kIw)` the first `s` bytes of each line are skipped. Formats
//! are parted by white space, but spaces in their parentheses are left out. What stands behind the rows is not read.
//!
//! Refused are: another first line; a size of other than three numbers, of an array two, and one that is not square; an
//! entry whose row or column is no number from 1 to the number of rows, whose value is no number, or with more or fewer
//! words; more or fewer entries than the size says; pointers that do not rise from 1 to one more than the number of
//! entries; a matrix that is not assembled; and a line of more than 65,536 bytes that is neither blank nor a comment of
//! the Matrix Market.
#![tactic(auto)]

pub mod arrays;
mod boeing;
mod cards;
pub mod columns;
mod dense;
pub mod entries;
pub mod faults;
mod fields;
mod formats;
pub mod found;
pub mod headers;
mod keys;
pub mod lines;
pub mod matrices;
pub mod reader;
pub mod sources;
