// How many components the graph of A + A' has. Each row links to one of its component that is not after it, the first
// one to itself; an entry joins the components of its row and its column. A search draws links up by one. Two entries
// of each column are joined first, which mostly gives a class with most of the rows. They are marked, and an entry of
// two marked rows is then passed over: marks fit into a cache where links do not. Source: Tarjan 1975; Tarjan and van
// Leeuwen 1984; Boyer and Moore 1991 (the class with most rows); Sutton, Ben-Nun and Barak 2018.

ghost use Rattle.std.specs.Prelude.{◌≡◌, ◌<◌, ◌≤◌, ◌+◌, ◌==◌, ℕ, true, false, pos, map, length};
ghost use Rattle.std.specs.Prelude.{slice_index, slice_index_or, IfOk, OnOk};
ghost use Rattle.amd_model.specs.Below.{count_below};
ghost use Rattle.amd_model.specs.Graph.{Graph};
ghost use Rattle.amd_model.specs.Input.Columns.{IsColumnForm};
ghost use Rattle.amd_model.specs.Input.Pattern.{graph_of};
ghost use Rattle.amd_report.specs.Passes.{AreClasses, AreMarkedClasses, AreNames, Connects, HaveOneName, IsForm};
ghost use Rattle.amd_report.specs.Passes.{joined_names};
ghost use Rattle.amd_report.specs.Shapes.{HasComponents};

use std::alloc::{AllocError, Allocator};

/// The first row of the class of a row.
fn first_of(row: usize, links: &mut [usize]) -> usize
    requires inside { row < length links.old }
    requires names { (name : ℕ → ℕ) × AreNames name links.old }
    ensures size { length links.new ≡ length links.old }
    ensures names { (name : ℕ → ℕ) → AreNames name links.old → AreNames name links.new × (result ≡ name row) }
{
    let mut at = row;
    'up: while links[at] != at {
        let over = links[links[at]];
        links[at] = over;
        at = over;
    }
    at
}

/// Joins the classes of two rows.
fn join(row: usize, column: usize, links: &mut [usize])
    requires row { row < length links.old }
    requires column { column < length links.old }
    requires names { (name : ℕ → ℕ) × AreNames name links.old }
    ensures size { length links.new ≡ length links.old }
    ensures names { (name : ℕ → ℕ) → AreNames name links.old → AreNames (joined_names name row column) links.new }
{
    let one = first_of(row, links);
    let other = first_of(column, links);
    links[one.max(other)] = one.min(other);
}

/// Joins the classes of two rows, of which both may link to one row already.
fn meet(row: usize, column: usize, links: &mut [usize])
    requires row { row < length links.old }
    requires column { column < length links.old }
    requires names { (name : ℕ → ℕ) × AreNames name links.old }
    ensures size { length links.new ≡ length links.old }
    ensures names { (name : ℕ → ℕ) → AreNames name links.old → AreNames (joined_names name row column) links.new }
{
    if links[row] == links[column] {
        return;
    }
    join(row, column, links);
}

/// Joins the classes of two rows, of which none is joined where both are marked.
fn meet_unmarked(row: usize, column: usize, marks: &[bool], links: &mut [usize])
    requires row { (row < length links.old) × (row < length marks.now) }
    requires column { (column < length links.old) × (column < length marks.now) }
    requires names { (name : ℕ → ℕ) × AreNames name links.old × HaveOneName name marks.now }
    ensures size { length links.new ≡ length links.old }
    ensures names { (name : ℕ → ℕ) → AreNames name links.old → HaveOneName name marks.now →
        AreNames (joined_names name row column) links.new }
{
    if marks[row] && marks[column] {
        return;
    }
    meet(row, column, links);
}

/// Joins the classes of the rows of a column with its own.
fn join_column(column: usize, a_p: &[usize], a_i: &[usize], marks: &[bool], links: &mut [usize])
    requires inside { column < length links.old }
    requires marks { length marks.now ≡ length links.old }
    requires form { IsForm (length links.old) a_p.now a_i.now }
    requires classes { (g : Graph) × Connects g (length links.old) a_p.now a_i.now ×
        AreMarkedClasses g a_p.now a_i.now column 0 marks.now links.old }
    ensures size { length links.new ≡ length links.old }
    ensures classes { (g : Graph) → Connects g (length links.old) a_p.now a_i.now →
        AreMarkedClasses g a_p.now a_i.now column 0 marks.now links.old →
        AreMarkedClasses g a_p.now a_i.now (column + 1) 0 marks.now links.new }
{
    let end = a_p[column + 1];
    'places: for place in a_p[column]..end {
        meet_unmarked(a_i[place], column, marks, links);
    }
}

/// Joins the classes of the rows and columns of the entries of a matrix with `n` rows and columns.
fn join_entries(n: usize, a_p: &[usize], a_i: &[usize], marks: &[bool], links: &mut [usize])
    requires size { length links.old ≡ n }
    requires marks { length marks.now ≡ n }
    requires form { IsForm n a_p.now a_i.now }
    requires classes { (g : Graph) × Connects g n a_p.now a_i.now ×
        AreMarkedClasses g a_p.now a_i.now 0 0 marks.now links.old }
    ensures size { length links.new ≡ n }
    ensures classes { (g : Graph) → Connects g n a_p.now a_i.now →
        AreMarkedClasses g a_p.now a_i.now 0 0 marks.now links.old →
        AreMarkedClasses g a_p.now a_i.now n 0 marks.now links.new }
{
    'columns: for column in 0..n {
        join_column(column, a_p, a_i, marks, links);
    }
}

/// Joins the classes of the row at a place of a column, where that is one, and of the column.
fn join_place(place: usize, column: usize, a_p: &[usize], a_i: &[usize], links: &mut [usize])
    requires inside { column < length links.old }
    requires from { slice_index a_p.now column ≤ place }
    requires form { IsForm (length links.old) a_p.now a_i.now }
    requires classes { (g : Graph) × Connects g (length links.old) a_p.now a_i.now ×
        AreClasses g a_p.now a_i.now 0 0 links.old }
    ensures size { length links.new ≡ length links.old }
    ensures classes { (g : Graph) → Connects g (length links.old) a_p.now a_i.now →
        AreClasses g a_p.now a_i.now 0 0 links.old → AreClasses g a_p.now a_i.now 0 0 links.new }
{
    if place < a_p[column + 1] {
        meet(a_i[place], column, links);
    }
}

/// Joins the classes of two entries of a column, the first ones.
fn join_two(column: usize, a_p: &[usize], a_i: &[usize], links: &mut [usize])
    requires inside { column < length links.old }
    requires form { IsForm (length links.old) a_p.now a_i.now }
    requires classes { (g : Graph) × Connects g (length links.old) a_p.now a_i.now ×
        AreClasses g a_p.now a_i.now 0 0 links.old }
    ensures size { length links.new ≡ length links.old }
    ensures classes { (g : Graph) → Connects g (length links.old) a_p.now a_i.now →
        AreClasses g a_p.now a_i.now 0 0 links.old → AreClasses g a_p.now a_i.now 0 0 links.new }
{
    let first = a_p[column];
    join_place(first, column, a_p, a_i, links);
    join_place(first.saturating_add(1), column, a_p, a_i, links);
}

/// Joins the classes of two entries of each column of a matrix with `n` rows and columns.
fn join_some(n: usize, a_p: &[usize], a_i: &[usize], links: &mut [usize])
    requires size { length links.old ≡ n }
    requires form { IsForm n a_p.now a_i.now }
    requires classes { (g : Graph) × Connects g n a_p.now a_i.now × AreClasses g a_p.now a_i.now 0 0 links.old }
    ensures size { length links.new ≡ n }
    ensures classes { (g : Graph) → Connects g n a_p.now a_i.now → AreClasses g a_p.now a_i.now 0 0 links.old →
        AreClasses g a_p.now a_i.now 0 0 links.new }
{
    'columns: for column in 0..n {
        join_two(column, a_p, a_i, links);
    }
}

/// The first row of the class that has more than half of the rows, where there is one, by a vote of all.
fn most_common(links: &mut [usize]) -> usize
    requires names { (name : ℕ → ℕ) × AreNames name links.old }
    ensures size { length links.new ≡ length links.old }
    ensures names { (name : ℕ → ℕ) → AreNames name links.old → AreNames name links.new }
{
    let mut common = 0;
    let mut votes: usize = 0;
    'rows: for row in 0..links.len() {
        let first = first_of(row, links);
        if votes == 0 {
            common = first;
        }
        votes = if first == common {
            votes.saturating_add(1)
        } else {
            votes.saturating_sub(1)
        };
    }
    common
}

/// Marks the rows that link to a row.
fn marks_of<A: Allocator>(
    alloc: A,
    first: usize,
    links: &[usize],
) -> Result<Vec<bool, A>, AllocError>
    ensures size { IfOk result (λ v. length v.items ≡ length links.now) }
    ensures marks { IfOk result (λ v. (i : ℕ) → slice_index_or v.items i false ≡ true →
        (i < length links.now) × (slice_index links.now i ≡ first)) }
{
    let mut marks = Vec::with_capacity(alloc, links.len())?;
    'rows: for &link in links {
        marks.push(link == first)?;
    }
    Ok(marks)
}

/// A list in which each row links to itself.
pub(crate) fn own_links<A: Allocator>(alloc: A, n: usize) -> Result<Vec<usize, A>, AllocError>
    ensures size { IfOk result (λ v. length v.items ≡ n) }
    ensures own { IfOk result (λ v. (i : ℕ) → i < n → slice_index v.items i ≡ i) }
{
    let mut links = Vec::with_capacity(alloc, n)?;
    'rows: for row in 0..n {
        links.push(row)?;
    }
    Ok(links)
}

/// Joins the classes of the rows and columns of all entries.
///
/// # Errors
///
/// A refused request for memory.
fn join_all<A: Allocator>(
    alloc: A,
    n: usize,
    a_p: &[usize],
    a_i: &[usize],
    links: &mut [usize],
) -> Result<(), AllocError>
    requires size { length links.old ≡ n }
    requires form { IsForm n a_p.now a_i.now }
    requires classes { (g : Graph) × Connects g n a_p.now a_i.now × AreClasses g a_p.now a_i.now 0 0 links.old }
    ensures classes { OnOk result ((g : Graph) → Connects g n a_p.now a_i.now →
        AreClasses g a_p.now a_i.now 0 0 links.old → AreClasses g a_p.now a_i.now n 0 links.new) }
{
    join_some(n, a_p, a_i, links);
    let first = most_common(links);
    let marks = marks_of(alloc, first, links)?;
    join_entries(n, a_p, a_i, &marks, links);
    Ok(())
}

/// How many rows link to themselves.
fn count_first(links: &[usize]) -> usize
    ensures { result ≡ count_below (length links.now) (λ v. slice_index links.now v == v) }
{
    let mut count = 0;
    'rows: for row in 0..links.len() {
        if links[row] == row {
            count += 1;
        }
    }
    count
}

/// How many components the graph of a matrix with `n` rows and columns has.
///
/// # Errors
///
/// A refused request for memory.
pub(crate) fn components<A: Allocator + Copy>(
    alloc: A,
    n: usize,
    a_p: &[usize],
    a_i: &[usize],
) -> Result<usize, AllocError>
    requires { IsColumnForm (pos n) n (map pos a_p.now) (map pos a_i.now) }
    ensures { IfOk result (HasComponents (graph_of n (map pos a_p.now) (map pos a_i.now))) }
{
    let mut links = own_links(alloc, n)?;
    join_all(alloc, n, a_p, a_i, &mut links)?;
    Ok(count_first(&links))
}
