// A picture of the tree of the supernodes of a factor, as SVG. A supernode is a block: it stands above those that it is
// assembled from, is as wide as its subtree has columns, and is the darker the larger its front. Source: Liu 1990.

ghost use Rattle.std.specs.Prelude.{◌≡◌, ◌<◌, ◌+◌, ◌*◌, ℕ, List, IfOk, OnOk, codes, length};
ghost use Rattle.std.specs.Io.KnownBytes.{Appends};
ghost use Rattle.amd_texts.specs.Writers.{HasTold};
ghost use Rattle.amd_report.specs.Pictures.{TellsShades};
ghost use Rattle.amd_report.specs.Trees.{AreShades, DrawsTree, shade_of};

use crate::canvas::{Canvas, canvas_of, front_of, greatest};
use crate::layout::{Layout, layout_of};
use crate::names::{plural, write_name};
use crate::shapes::write_shape;
use std::alloc::{AllocError, Allocator};
use std::io;
use std::io::Write;

/// The height of a line in pixels.
const HEIGHT: usize = 18;

/// The shades of blocks: the lightest one is 1.
const SHADES: u8 = 17;

/// Blocks have an outline where there are so many columns at most: then each is four pixels wide.
const MOST_OUTLINED: usize = 205;

/// How dark a front is where the largest one has `most` rows: 0 for none, and else from 1 up to `SHADES`.
fn shade_of(front: usize, most: usize) -> u8
    ensures { result ≡ shade_of most front }
{
    if front == 0 {
        return 0;
    }
    let above = (front.min(most) as u128) * 16 / (most.max(1) as u128);
    1 + above.min(16) as u8
}

/// How dark each cell is.
fn shades_of<A: Allocator>(
    alloc: A,
    fronts: &[usize],
    most: usize,
) -> Result<Vec<u8, A>, AllocError>
    ensures { IfOk result (λ v. AreShades fronts.now most v.items) }
{
    let mut shades = Vec::with_capacity(alloc, fronts.len())?;
    'cells: for &front in fronts {
        shades.push(shade_of(front, most))?;
    }
    Ok(shades)
}

/// Writes the beginning of a picture with so many lines.
fn write_head<W: Write>(lines: usize, out: &mut W) -> io::Result<()>
    ensures { OnOk result (HasTold (W.contents out.old) (W.contents out.new)) }
{
    let height = lines.saturating_mul(HEIGHT).saturating_add(110);
    writeln!(
        out,
        "<svg xmlns=\"http://www.w3.org/2000/svg\" width=\"860\" height=\"{height}\" viewBox=\"0 0 860 {height}\""
    )?;
    out.write_all(
        b" font-family=\"sans-serif\" font-size=\"14\">
<rect width=\"100%\" height=\"100%\" fill=\"#ffffff\"/>
<text x=\"20\" y=\"24\">",
    )?;
    Ok(())
}

/// Writes how many rows, supernodes and levels a tree has, and how many rows its largest front.
fn write_counts<W: Write>(
    rows: usize,
    count: usize,
    levels: usize,
    most: usize,
    out: &mut W,
) -> io::Result<()>
    ensures { OnOk result (HasTold (W.contents out.old) (W.contents out.new)) }
{
    let (a, b) = (plural(rows as u128), plural(count as u128));
    let (c, d) = (plural(levels as u128), plural(most as u128));
    writeln!(
        out,
        ": {rows} row{a}, {count} supernode{b} on {levels} level{c}, largest front {most} row{d}</text>"
    )?;
    Ok(())
}

/// Writes the cells of all shades.
fn write_shades<W: Write>(side: usize, shades: &[u8], out: &mut W) -> io::Result<()>
    ensures { OnOk result ((text : List ℕ) × TellsShades side shades.now (codes "#1f4e79") 17 text ×
        Appends (W.contents out.old) (W.contents out.new) text) }
{
    'shades: for shade in 0..SHADES {
        let opacity = 15 + 5 * (u16::from(shade) + 1);
        write_shape(side, shades, shade + 1, "#1f4e79", opacity, out)?;
    }
    Ok(())
}

/// Writes the outline of a block: the line that it is on, its first column and how many columns it is wide.
fn write_outline<W: Write>(line: usize, left: usize, width: usize, out: &mut W) -> io::Result<()>
    ensures { OnOk result (HasTold (W.contents out.old) (W.contents out.new)) }
{
    write!(out, "M{left} {line}h{width}v1h-{width}z")?;
    Ok(())
}

/// A number of a list; 0 past its end.
fn number_at(numbers: &[usize], k: usize) -> usize {
    numbers.get(k).copied().unwrap_or(0)
}

/// Writes the outlines of so many blocks, each of which has a column for each cell and a level for each line.
fn write_outlines<W: Write, A: Allocator>(
    count: usize,
    layout: &Layout<A>,
    out: &mut W,
) -> io::Result<()>
    ensures { OnOk result (HasTold (W.contents out.old) (W.contents out.new)) }
{
    'outlines: for s in 0..count {
        let line = number_at(&layout.level, s).saturating_sub(1);
        let (left, width) = (number_at(&layout.left, s), number_at(&layout.width, s));
        write_outline(line, left, width, out)?;
    }
    Ok(())
}

/// Writes the outlines of so many blocks where there are few columns: then a cell is one column on one level.
fn write_few<W: Write, A: Allocator>(
    count: usize,
    canvas: &Canvas<A>,
    layout: &Layout<A>,
    out: &mut W,
) -> io::Result<()>
    ensures { OnOk result (HasTold (W.contents out.old) (W.contents out.new)) }
{
    if canvas.side > MOST_OUTLINED || canvas.across > 1 || canvas.down > 1 {
        return Ok(());
    }
    write_outlines(count, layout, out)
}

/// Writes the path of the outlines of so many blocks, and the end of the cells.
fn write_lines<W: Write, A: Allocator>(
    count: usize,
    canvas: &Canvas<A>,
    layout: &Layout<A>,
    out: &mut W,
) -> io::Result<()>
    ensures { OnOk result (HasTold (W.contents out.old) (W.contents out.new)) }
{
    out.write_all(
        b"<path fill=\"none\" stroke=\"#ffffff\" vector-effect=\"non-scaling-stroke\" d=\"",
    )?;
    write_few(count, canvas, layout, out)?;
    out.write_all(b"\"/>\n</svg>\n")?;
    Ok(())
}

/// Writes the beginning of the cells.
fn begin_cells<W: Write>(side: usize, lines: usize, out: &mut W) -> io::Result<()>
    ensures { OnOk result (HasTold (W.contents out.old) (W.contents out.new)) }
{
    let height = lines.saturating_mul(HEIGHT);
    writeln!(
        out,
        "<svg x=\"20\" y=\"36\" width=\"820\" height=\"{height}\" viewBox=\"0 0 {side} {lines}\""
    )?;
    out.write_all(b" preserveAspectRatio=\"none\" shape-rendering=\"crispEdges\">\n")?;
    Ok(())
}

/// Writes a line of the legend, so many pixels from the top.
fn write_note<W: Write>(top: usize, note: &str, out: &mut W) -> io::Result<()>
    ensures { OnOk result (HasTold (W.contents out.old) (W.contents out.new)) }
{
    writeln!(
        out,
        "<text x=\"20\" y=\"{top}\" font-size=\"12\">{note}</text>"
    )?;
    Ok(())
}

/// Writes what a block is, so many pixels from the top.
fn write_notes<W: Write>(top: usize, out: &mut W) -> io::Result<()>
    ensures { OnOk result (HasTold (W.contents out.old) (W.contents out.new)) }
{
    let next = top.saturating_add(18);
    write_note(
        top,
        "A block is a supernode: above those that it is assembled from, the darker the larger its front.",
        out,
    )?;
    write_note(
        next,
        "It is as wide as its subtree has columns, which stand in a postorder of the elimination tree.",
        out,
    )?;
    Ok(())
}

/// Writes what a cell is where it is more than one column on one level, so many pixels from the top.
fn write_merged<W: Write>(top: usize, across: usize, down: usize, out: &mut W) -> io::Result<()>
    ensures { OnOk result (HasTold (W.contents out.old) (W.contents out.new)) }
{
    if across == 1 && down == 1 {
        return Ok(());
    }
    let (a, b) = (plural(across as u128), plural(down as u128));
    write!(
        out,
        "<text x=\"20\" y=\"{top}\" font-size=\"12\">A cell is "
    )?;
    writeln!(
        out,
        "{across} column{a} on {down} level{b}, and shows the largest front in it.</text>"
    )?;
    Ok(())
}

/// Writes what is drawn, and the end of the picture.
fn write_foot<W: Write, A: Allocator>(canvas: &Canvas<A>, out: &mut W) -> io::Result<()>
    ensures { OnOk result (HasTold (W.contents out.old) (W.contents out.new)) }
{
    let top = canvas.lines.saturating_mul(HEIGHT).saturating_add(56);
    write_notes(top, out)?;
    write_merged(top.saturating_add(36), canvas.across, canvas.down, out)?;
    out.write_all(b"</svg>\n")?;
    Ok(())
}

/// The greatest front of the supernodes.
fn largest_front(first: &[usize], ptr: &[usize], count: usize) -> usize {
    let mut most = 0usize;
    'supernodes: for s in 0..count {
        most = most.max(front_of(first, ptr, s));
    }
    most
}

/// Writes what stands before the cells: the name of the file, and what there is of its tree.
fn write_before<W: Write, A: Allocator>(
    name: &str,
    most: usize,
    layout: &Layout<A>,
    canvas: &Canvas<A>,
    out: &mut W,
) -> io::Result<()>
    ensures { OnOk result (HasTold (W.contents out.old) (W.contents out.new)) }
{
    let count = layout.width.len().saturating_sub(1);
    let rows = number_at(&layout.width, count);
    write_head(canvas.lines, out)?;
    write_name(name, out)?;
    write_counts(rows, count, greatest(&layout.level), most, out)?;
    begin_cells(canvas.side, canvas.lines, out)?;
    Ok(())
}

/// Writes what stands behind the cells: outlines of the blocks, and the legend.
fn write_behind<W: Write, A: Allocator>(
    layout: &Layout<A>,
    canvas: &Canvas<A>,
    out: &mut W,
) -> io::Result<()>
    ensures { OnOk result (HasTold (W.contents out.old) (W.contents out.new)) }
{
    let count = layout.width.len().saturating_sub(1);
    write_lines(count, canvas, layout, out)?;
    write_foot(canvas, out)?;
    Ok(())
}

/// Draws the tree of the supernodes of a factor, with the name of the file that it is of: they begin at the columns
/// `first`, have the rows below their blocks that `ptr` tells the number of, and these parents.
///
/// # Errors
///
/// `OutOfMemory` where memory was refused, before anything is written; and those of the writer.
pub fn write_tree_picture<W: Write, A: Allocator + Copy>(
    alloc: A,
    name: &str,
    first: &[usize],
    ptr: &[usize],
    parents: &[Option<usize>],
    out: &mut W,
) -> io::Result<()>
    ensures { OnOk result (DrawsTree A first.now ptr.now parents.now (W.contents out.old) (W.contents out.new)) }
{
    let layout = layout_of(alloc, first, parents)?;
    let canvas = canvas_of(alloc, &layout, first, ptr)?;
    let most = largest_front(first, ptr, parents.len());
    let shades = shades_of(alloc, &canvas.fronts, most)?;
    write_before(name, most, &layout, &canvas, out)?;
    write_shades(canvas.side, &shades, out)?;
    write_behind(&layout, &canvas, out)?;
    Ok(())
}
