// A matrix as a caller gives it. Source: AMD user guide (the column form of the input).

/// The pattern of a square matrix by columns, in the caller's arrays, which may be no column form.
#[derive(Clone, Copy)]
pub struct Matrix<'a, I: Copy> {
    /// Rows and columns.
    pub n: I,
    /// Where each column begins in `a_i`, and the end of the last one.
    pub a_p: &'a [I],
    /// The rows of the entries, column by column.
    pub a_i: &'a [I],
}
