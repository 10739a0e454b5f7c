// What each ordering is given: a matrix, and what is asked for beside it. Source: AMD user guide.

use amd_types::amd::Control;

/// A square matrix by columns.
#[derive(Drop)]
pub struct Matrix<'a, I> {
    /// Where each column starts, and where the last one ends.
    pub a_p: &'a [I],
    /// The row indices, column by column.
    pub a_i: &'a [I],
    /// Whether columns may be out of order or have duplicates. Where not, each is strictly ascending.
    pub jumbled: bool,
}

/// What a caller chooses for an ordering.
#[derive(Drop)]
pub struct Request<'a> {
    /// Which rows are dense, and whether absorption is aggressive.
    pub control: &'a Control,
    /// The rows that are marked are held last beside the dense ones. Where it is given, each row has a mark.
    pub hold: Option<&'a [bool]>,
}
