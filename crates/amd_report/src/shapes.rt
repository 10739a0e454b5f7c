// The shape of the cells of one kind in lines of cells: rectangles of one line each, as the path of an SVG.

ghost use Rattle.std.specs.Prelude.{◌≡◌, ◌≢◌, ◌-◌, ◌+◌, ◌<◌, ◌↔◌, true, ℕ, List, Option, IfOk, OnOk, slice_index};
ghost use Rattle.std.specs.Io.KnownBytes.{Appends};
ghost use Rattle.amd_report.specs.Pictures.{IsPath, TellsLine, TellsLines, TellsRuns, TellsShape};
ghost use Rattle.amd_report.specs.Pictures.{line_of, path_head, run_path};

use std::io;
use std::io::Write;

/// Writes a rectangle of one line of cells, from a cell up to another one.
fn write_run<W: Write>(line: usize, from: usize, to: usize, out: &mut W) -> io::Result<()>
    ensures { OnOk result (Appends (W.contents out.old) (W.contents out.new) (run_path line from (to - from))) }
{
    let width = to.saturating_sub(from);
    write!(out, "M{from} {line}h{width}v1h-{width}z")?;
    Ok(())
}

/// The kind of a cell; 0 past the end.
fn kind_at(kinds: &[u8], cell: usize) -> u8
    ensures { result ≡ slice_index kinds.now cell }
{
    kinds.get(cell).copied().unwrap_or(0)
}

/// Writes the rectangle of the run that ends with a cell, where one does: the run begins at `begin`, and the next cell
/// is of another kind, or there is none. Returns where the run under way begins then.
fn write_cell<W: Write>(
    line: usize,
    kinds: &[u8],
    kind: u8,
    cell: usize,
    begin: usize,
    out: &mut W,
) -> io::Result<usize>
    requires { cell < 18446744073709551615 }
    ensures { IfOk result (λ next. (start : Option (List ℕ)) →
        TellsRuns line kinds.now kind cell begin start (W.contents out.old) →
        TellsRuns line kinds.now kind (cell + 1) next start (W.contents out.new)) }
{
    let next = cell + 1;
    if kind_at(kinds, cell) != kind {
        return Ok(next);
    }
    if kind_at(kinds, next) == kind {
        return Ok(begin);
    }
    write_run(line, begin, next, out)?;
    Ok(next)
}

/// Writes the rectangles of the cells of a line that have this kind, which is not 0.
fn write_line<W: Write>(line: usize, kinds: &[u8], kind: u8, out: &mut W) -> io::Result<()>
    requires { 0 < kind }
    ensures { OnOk result ((text : List ℕ) × TellsLine line kinds.now kind text ×
        Appends (W.contents out.old) (W.contents out.new) text) }
{
    let mut begin = 0;
    'cells: for cell in 0..kinds.len() {
        begin = write_cell(line, kinds, kind, cell, begin, out)?;
    }
    Ok(())
}

/// The cells of a line, of `side` cells each.
fn cells_of(side: usize, kinds: &[u8], line: usize) -> &[u8]
    ensures { result.now ≡ line_of side kinds.now line }
{
    let begin = line.saturating_mul(side).min(kinds.len());
    let next = line.saturating_add(1).saturating_mul(side);
    &kinds[begin..next.min(kinds.len()).max(begin)]
}

/// Writes the rectangles of the cells that have this kind, which is not 0, in so many lines of `side` cells.
fn write_lines<W: Write>(
    side: usize,
    lines: usize,
    kinds: &[u8],
    kind: u8,
    out: &mut W,
) -> io::Result<()>
    requires { 0 < kind }
    ensures { OnOk result ((text : List ℕ) × TellsLines side kinds.now kind lines text ×
        Appends (W.contents out.old) (W.contents out.new) text) }
{
    'lines: for line in 0..lines {
        write_line(line, cells_of(side, kinds, line), kind, out)?;
    }
    Ok(())
}

/// Writes the beginning of a path.
fn begin_path<W: Write>(colour: &str, opacity: u16, out: &mut W) -> io::Result<()>
    ensures { OnOk result (Appends (W.contents out.old) (W.contents out.new) (path_head colour.now opacity)) }
{
    write!(
        out,
        "<path fill=\"{colour}\" fill-opacity=\"{opacity}%\" d=\""
    )?;
    Ok(())
}

/// Writes the path of the cells that have this kind, which is not 0, in lines of `side` cells, at least one.
fn write_path<W: Write>(
    side: usize,
    kinds: &[u8],
    kind: u8,
    colour: &str,
    opacity: u16,
    out: &mut W,
) -> io::Result<()>
    requires kind { 0 < kind }
    requires side { 0 < side }
    ensures { OnOk result ((text : List ℕ) × IsPath side kinds.now kind colour.now opacity text ×
        Appends (W.contents out.old) (W.contents out.new) text) }
{
    begin_path(colour, opacity, out)?;
    write_lines(side, kinds.len().div_ceil(side), kinds, kind, out)?;
    out.write_all(b"\"/>\n")?;
    Ok(())
}

/// Writes the shape of the cells that have this kind, which is not 0, in lines of `side` cells; nothing where there are
/// none. The colour has so many percent of opacity.
pub fn write_shape<W: Write>(
    side: usize,
    kinds: &[u8],
    kind: u8,
    colour: &str,
    opacity: u16,
    out: &mut W,
) -> io::Result<()>
    requires { 0 < kind }
    ensures { OnOk result ((text : List ℕ) × TellsShape side kinds.now kind colour.now opacity text ×
        Appends (W.contents out.old) (W.contents out.new) text) }
{
    if !kinds.contains(&kind) {
        return Ok(());
    }
    write_path(side.max(1), kinds, kind, colour, opacity, out)
}
