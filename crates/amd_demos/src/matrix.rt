// A matrix by columns, as the demos print it. Each question about it has an answer, also where it is no column form:
// what is not there is `None` or no entry. No contract says what its answers are; stored outputs and tests do.

/// A square matrix with `n` columns, whose column `j` holds the rows `a_i[a_p[j]..a_p[j + 1]]`.
#[derive(Clone, Copy)]
pub struct DemoMatrix<'a> {
    /// The number of rows and columns.
    pub n: i32,
    /// Where each column begins, and then where the last one ends.
    pub a_p: &'a [i32],
    /// The rows of the columns, one column after the other.
    pub a_i: &'a [i32],
}

impl<'a> DemoMatrix<'a> {
    /// The pointer at the place `j`.
    pub fn pointer(&self, j: i32) -> Option<i32> {
        let place = usize::try_from(j).ok()?;
        self.a_p.get(place).copied()
    }

    /// Where column `j` begins and where it ends.
    pub fn ends(&self, j: i32) -> Option<(i32, i32)> {
        let next = j.checked_add(1)?;
        Some((self.pointer(j)?, self.pointer(next)?))
    }

    /// The rows of column `j`, in the order in which they stand.
    pub fn column(&self, j: i32) -> Option<&'a [i32]> {
        let (begin, end) = self.ends(j)?;
        let begin = usize::try_from(begin).ok()?;
        let end = usize::try_from(end).ok()?;
        self.a_i.get(begin..end)
    }

    /// Whether there is an entry in row `i` of column `j`.
    pub fn has_entry(&self, i: i32, j: i32) -> bool {
        match self.column(j) {
            Some(rows) => rows.contains(&i),
            None => false,
        }
    }
}
