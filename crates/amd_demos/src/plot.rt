// A plot of a matrix in letters, a line for each row, after the Rust crate's demos.

ghost use Rattle.std.specs.Prelude.{OnOk};
ghost use Rattle.amd_texts.specs.Writers.{HasTold};

use crate::matrix::DemoMatrix;
use std::io;
use std::io::Write;

/// What a plot marks.
#[derive(Clone, Copy)]
pub enum Marks {
    /// The place of each entry.
    Entries,
    /// The diagonal, and the place of each entry and its mirror.
    BothPlaces,
}

/// A plot of a matrix: what it marks, how many spaces it has before its heading, and the rows that stand at the places
/// from 0 on, where row and column `k` stand at the place `k` from the end of that list on.
#[derive(Clone, Copy)]
pub struct Plot<'a> {
    /// The matrix.
    pub matrix: &'a DemoMatrix<'a>,
    /// What is marked.
    pub marks: Marks,
    /// The spaces before the heading.
    pub margin: &'a str,
    /// The rows at the places from 0 on.
    pub places: &'a [i32],
}

impl<'a> Plot<'a> {
    /// The row that stands at the place `k`.
    fn row_at(&self, k: i32) -> i32 {
        let Ok(place) = usize::try_from(k) else {
            return k;
        };
        match self.places.get(place) {
            Some(row) => *row,
            None => k,
        }
    }

    /// Whether there is a mark in the line `line`, at the column `place`.
    fn is_marked(&self, line: i32, place: i32) -> bool {
        let i = self.row_at(line);
        let j = self.row_at(place);
        let has_entry = self.matrix.has_entry(i, j);
        match self.marks {
            Marks::Entries => has_entry,
            Marks::BothPlaces => has_entry || i == j || self.matrix.has_entry(j, i),
        }
    }
}

/// Writes the heading of a plot, the last digit of each column.
fn write_heading<W: Write>(plot: &Plot, out: &mut W) -> io::Result<()>
    ensures { OnOk result (HasTold (W.contents out.old) (W.contents out.new)) }
{
    write!(out, "{}", plot.margin)?;
    for j in 0..plot.matrix.n {
        let digit = j % 10;
        write!(out, " {digit}")?;
    }
    out.write_all(b"\n")?;
    Ok(())
}

/// Writes a line of a plot.
fn write_line<W: Write>(plot: &Plot, line: i32, out: &mut W) -> io::Result<()>
    ensures { OnOk result (HasTold (W.contents out.old) (W.contents out.new)) }
{
    write!(out, "{line}: ")?;
    for place in 0..plot.matrix.n {
        let mark = if plot.is_marked(line, place) {
            "X"
        } else {
            "."
        };
        write!(out, " {mark}")?;
    }
    out.write_all(b"\n")?;
    Ok(())
}

/// Writes an empty line, a title and a plot.
pub fn write_plot<W: Write>(title: &str, plot: &Plot, out: &mut W) -> io::Result<()>
    ensures { OnOk result (HasTold (W.contents out.old) (W.contents out.new)) }
{
    writeln!(out, "\n{title}")?;
    write_heading(plot, out)?;
    for line in 0..plot.matrix.n {
        write_line(plot, line, out)?;
    }
    Ok(())
}
