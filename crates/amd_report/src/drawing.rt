// The picture of a matrix as it stands and in the order of its elimination, side by side, as SVG. Each panel shows the
// entries of the matrix and the fill of the factor under its order; a cell has one colour.

ghost use Rattle.std.specs.Prelude.{◌≡◌, ℕ, List, OnOk};
ghost use Rattle.std.specs.Io.KnownBytes.{Appends};
ghost use Rattle.amd_texts.specs.Writers.{HasTold};
ghost use Rattle.amd_report.specs.Pictures.{TellsAmong, TellsPanel, TellsPanels};

use crate::kinds::{BOTH, ENTRIES, FILL};
use crate::names::{plural, write_name};
use crate::shapes::write_shape;
use std::alloc::Allocator;
use std::io;
use std::io::Write;

/// A panel: a matrix under an order of its rows.
#[derive(Drop)]
pub struct Panel<A: Allocator> {
    /// What each cell shows, line by line.
    pub kinds: Vec<u8, A>,
    /// The number of entries of the factor that are no edges.
    pub fill: u128,
    /// Whether the fill is drawn, and not left out.
    pub has_fill: bool,
}

/// What a picture is of.
#[derive(Clone, Copy)]
pub struct Subject<'a> {
    /// The name of the file.
    pub name: &'a str,
    /// The number of rows.
    pub n: usize,
    /// The number of entries.
    pub entries: usize,
    /// The number of edges.
    pub edges: usize,
    /// The cells in a line of a panel.
    pub side: usize,
    /// The rows that fall into a line of cells.
    pub step: usize,
}

/// Writes the cells of a panel, in lines of `side` cells.
fn write_cells<W: Write>(side: usize, kinds: &[u8], out: &mut W) -> io::Result<()>
    ensures { OnOk result ((text : List ℕ) × TellsPanel side kinds.now text ×
        Appends (W.contents out.old) (W.contents out.new) text) }
{
    write_shape(side, kinds, ENTRIES, "#1f4e79", 100, out)?;
    write_shape(side, kinds, FILL, "#e07b39", 100, out)?;
    write_shape(side, kinds, BOTH, "#8a2f5b", 100, out)?;
    Ok(())
}

/// Writes the title of a panel, which it is and its fill, and its beginning, so many pixels from the left.
fn begin_panel<W: Write>(
    left: usize,
    side: usize,
    title: &str,
    fill: u128,
    out: &mut W,
) -> io::Result<()>
    ensures { OnOk result (HasTold (W.contents out.old) (W.contents out.new)) }
{
    writeln!(
        out,
        "<text x=\"{left}\" y=\"24\">{title}, fill: {fill}</text>\n<svg x=\"{left}\" y=\"36\""
    )?;
    writeln!(
        out,
        " width=\"400\" height=\"400\" viewBox=\"0 0 {side} {side}\" shape-rendering=\"crispEdges\">"
    )?;
    out.write_all(b"<rect width=\"100%\" height=\"100%\" fill=\"#f4f4f2\"/>\n")?;
    Ok(())
}

/// Writes that the fill of a panel is left out, where it is.
fn write_missing<W: Write>(left: usize, has_fill: bool, out: &mut W) -> io::Result<()>
    ensures { OnOk result (HasTold (W.contents out.old) (W.contents out.new)) }
{
    if has_fill {
        return Ok(());
    }
    let x = left.saturating_add(8);
    writeln!(
        out,
        "<text x=\"{x}\" y=\"428\">the fill is left out: the factor is too large to draw</text>"
    )?;
    Ok(())
}

/// Writes the end of a panel, and that its fill is left out where it is.
fn end_panel<W: Write>(left: usize, has_fill: bool, out: &mut W) -> io::Result<()>
    ensures { OnOk result (HasTold (W.contents out.old) (W.contents out.new)) }
{
    out.write_all(b"</svg>\n")?;
    write_missing(left, has_fill, out)?;
    Ok(())
}

/// Writes a panel that begins so many pixels from the left.
fn write_panel<W: Write, A: Allocator>(
    left: usize,
    side: usize,
    title: &str,
    panel: &Panel<A>,
    out: &mut W,
) -> io::Result<()>
    ensures { OnOk result ((text : List ℕ) × TellsPanel side panel.now.kinds.items text ×
        TellsAmong (W.contents out.old) (W.contents out.new) text) }
{
    begin_panel(left, side, title, panel.fill, out)?;
    write_cells(side, &panel.kinds, out)?;
    end_panel(left, panel.has_fill, out)?;
    Ok(())
}

/// Writes the beginning of the picture.
fn write_head<W: Write>(out: &mut W) -> io::Result<()>
    ensures { OnOk result (HasTold (W.contents out.old) (W.contents out.new)) }
{
    out.write_all(
        b"<svg xmlns=\"http://www.w3.org/2000/svg\" width=\"860\" height=\"492\"
 viewBox=\"0 0 860 492\" font-family=\"sans-serif\" font-size=\"14\">
<rect width=\"860\" height=\"492\" fill=\"#ffffff\"/>
",
    )?;
    Ok(())
}

/// Writes how many rows and columns a cell has, where it is more than one place, and the colour of both.
fn write_step<W: Write>(step: usize, out: &mut W) -> io::Result<()>
    ensures { OnOk result (HasTold (W.contents out.old) (W.contents out.new)) }
{
    if step == 1 {
        return Ok(());
    }
    out.write_all(b"<rect x=\"190\" y=\"469\" width=\"12\" height=\"12\" fill=\"#8a2f5b\"/>")?;
    writeln!(
        out,
        "<text x=\"208\" y=\"480\">both in a cell of {step} rows and {step} columns</text>"
    )?;
    Ok(())
}

/// Writes what the colours mean, and the end of the picture: a cell has `step` rows and columns.
fn write_keys<W: Write>(step: usize, out: &mut W) -> io::Result<()>
    ensures { OnOk result (HasTold (W.contents out.old) (W.contents out.new)) }
{
    out.write_all(
        b"<rect x=\"20\" y=\"469\" width=\"12\" height=\"12\" fill=\"#1f4e79\"/>
<text x=\"38\" y=\"480\">entries</text>
<rect x=\"110\" y=\"469\" width=\"12\" height=\"12\" fill=\"#e07b39\"/>
<text x=\"128\" y=\"480\">fill</text>
",
    )?;
    write_step(step, out)?;
    out.write_all(b"</svg>\n")?;
    Ok(())
}

/// Writes how many rows, entries and edges there are.
fn write_counts<W: Write>(n: usize, entries: usize, edges: usize, out: &mut W) -> io::Result<()>
    ensures { OnOk result (HasTold (W.contents out.old) (W.contents out.new)) }
{
    let entry = if entries == 1 { "entry" } else { "entries" };
    let (a, b) = (plural(n as u128), plural(edges as u128));
    writeln!(
        out,
        ": {n} row{a}, {entries} {entry}, {edges} edge{b}</text>"
    )?;
    Ok(())
}

/// Writes what the picture is of, what the colours mean, and the end of the picture.
fn write_foot<W: Write>(subject: Subject<'_>, out: &mut W) -> io::Result<()>
    ensures { OnOk result (HasTold (W.contents out.old) (W.contents out.new)) }
{
    out.write_all(b"<text x=\"20\" y=\"460\">")?;
    write_name(subject.name, out)?;
    write_counts(subject.n, subject.entries, subject.edges, out)?;
    write_keys(subject.step, out)?;
    Ok(())
}

/// Draws a matrix as it stands and in the order of its elimination.
///
/// # Errors
///
/// Those of the writer.
pub fn write_drawing<W: Write, A: Allocator>(
    subject: Subject<'_>,
    before: &Panel<A>,
    after: &Panel<A>,
    out: &mut W,
) -> io::Result<()>
    ensures { OnOk result (TellsPanels subject.entry.side before.now.kinds.items after.now.kinds.items
        (W.contents out.old) (W.contents out.new)) }
{
    let side = subject.side;
    write_head(out)?;
    write_panel(20, side, "before", before, out)?;
    write_panel(440, side, "after", after, out)?;
    write_foot(subject, out)?;
    Ok(())
}
