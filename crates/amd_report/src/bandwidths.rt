// How wide the band of a matrix is: the most rows by which an entry is below the diagonal, and above it. Source: George
// and Liu 1981.

ghost use Rattle.std.specs.Prelude.{◌≡◌, ◌<◌, ◌+◌, ◌-◌, pos, map, max};
ghost use Rattle.amd_model.specs.Input.Columns.{IsColumnForm, IsSorted};
ghost use Rattle.amd_report.specs.Passes.{IsMostMet};
ghost use Rattle.amd_report.specs.Shapes.{IsMost, above, below};
ghost use Rattle.amd_report.specs.Signs.{IsRisingForm};

/// How wide a band is.
#[derive(Clone, Copy)]
pub struct Bandwidths {
    /// The most rows by which an entry is below the diagonal; 0 where none is.
    pub lower: usize,
    /// The most rows by which an entry is above the diagonal; 0 where none is.
    pub upper: usize,
}

/// The bandwidths with one entry more.
fn with_entry(widths: Bandwidths, row: usize, column: usize) -> Bandwidths
    ensures lower { result.lower ≡ max widths.lower (row - column) }
    ensures upper { result.upper ≡ max widths.upper (column - row) }
{
    Bandwidths {
        lower: widths.lower.max(row.saturating_sub(column)),
        upper: widths.upper.max(column.saturating_sub(row)),
    }
}

/// The bandwidths with the entries of one column more, of `n`: the first one and the last one tell, as the rows rise.
fn with_column(
    widths: Bandwidths,
    column: usize,
    n: usize,
    a_p: &[usize],
    a_i: &[usize],
) -> Bandwidths
    requires form { IsRisingForm n a_p.now a_i.now }
    requires inside { column < n }
    requires lower { IsMostMet a_p.now a_i.now column 0 below widths.lower }
    requires upper { IsMostMet a_p.now a_i.now column 0 above widths.upper }
    ensures lower { IsMostMet a_p.now a_i.now (column + 1) 0 below result.lower }
    ensures upper { IsMostMet a_p.now a_i.now (column + 1) 0 above result.upper }
{
    let (begin, end) = (a_p[column], a_p[column + 1]);
    if begin == end {
        return widths;
    }
    let wider = with_entry(widths, a_i[begin], column);
    with_entry(wider, a_i[end - 1], column)
}

/// The bandwidths of a sorted matrix with `n` rows and columns.
pub(crate) fn widths_of(n: usize, a_p: &[usize], a_i: &[usize]) -> Bandwidths
    requires form { IsColumnForm (pos n) n (map pos a_p.now) (map pos a_i.now) }
    requires sorted { IsSorted n (map pos a_p.now) (map pos a_i.now) }
    ensures lower { IsMost n (map pos a_p.now) (map pos a_i.now) below result.lower }
    ensures upper { IsMost n (map pos a_p.now) (map pos a_i.now) above result.upper }
{
    let mut widths = Bandwidths { lower: 0, upper: 0 };
    'columns: for column in 0..n {
        widths = with_column(widths, column, n, a_p, a_i);
    }
    widths
}
