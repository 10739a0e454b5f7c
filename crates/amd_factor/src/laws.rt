// Laws of the factor as paths define it, and on the contracts of `columns` and `counts`, each the contract of a
// function with an empty body. Source: Liu 1986 and 1990.

ghost use Rattle.amd_factor.specs.Counted.{CountsReserve, CountsTellFactor};
ghost use Rattle.amd_factor.specs.Laws.{ParentsTellTree, RowsTellSubtrees, ThereIsOneFactor};
ghost use Rattle.amd_factor.specs.Trees.{ColumnsByChildren, RowsAreSubtrees};

/// A place is an entry of exactly those columns that lie in its subtree of the elimination tree.
pub fn law_rows_are_subtrees()
    ensures { RowsAreSubtrees }
{}

/// A place is an entry of the column of an earlier place exactly where an edge joins their rows, or where it is an
/// entry of the column of a child.
pub fn law_columns_by_children()
    ensures { ColumnsByChildren }
{}

/// The parent of a column is its parent in the elimination tree, the first entry of the column. A column has none
/// exactly where it is empty.
pub fn law_parents()
    ensures { ParentsTellTree }
{}

/// A column has an entry in a later row exactly where the column lies in the subtree of that row in the elimination
/// tree.
pub fn law_rows()
    ensures { RowsTellSubtrees }
{}

/// There is one factor: two answers for the same matrix and the same order are equal, whatever room they were made in.
pub fn law_one_factor()
    ensures { ThereIsOneFactor }
{}

/// The counts are a room for `columns`: with the sum of the sizes, or more, it never finds the room too small.
pub fn law_counts_reserve()
    ensures { CountsReserve }
{}

/// The counts are those of the columns: each size is the number of entries of its column, and the parents are the same.
pub fn law_counts_tell_factor()
    ensures { CountsTellFactor }
{}
