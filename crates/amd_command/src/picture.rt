// A picture of a matrix as it stands and in the order of its elimination: each panel shows the entries and the fill of
// the factor under its order, which is left out where the factor is too large.

ghost use Rattle.std.specs.Prelude.{◌≡◌, pos, map, true, IfOk};
ghost use Rattle.amd_model.specs.Input.Columns.{IsInput};
ghost use Rattle.amd_report.specs.Grids.{lines_for};
ghost use Rattle.amd_report.specs.Kinds.{AreKinds};
ghost use Rattle.amd_command.specs.Panels.{DrawsMatrix, IsPanel, marks_of};

use crate::drawn::drawn_fill;
use crate::faults::cause_of;
use crate::needs::{need_under, standing_order};
use amd::Status;
use amd::valid::valid;
use amd_cli::causes::Cause;
use amd_factor::places::places;
use amd_market::reader::Matrix;
use amd_report::drawing::{Panel, Subject, write_drawing};
use amd_report::entry_cells::entry_grid;
use amd_report::grids::Grid;
use amd_report::kinds::kinds_of;
use std::alloc::{AllocError, Allocator};
use std::io::Write;

/// A factor with more rows below the blocks of its supernodes is not drawn.
pub const MOST_ROWS: usize = 1 << 26;

/// What is drawn.
#[derive(Clone, Copy)]
pub struct Source<'a> {
    /// The name of the file.
    pub name: &'a str,
    /// The number of edges of the matrix.
    pub edges: usize,
    /// Whether the panel before shows `A + A'`, and not `A`.
    pub symmetric: bool,
    /// The most rows below the blocks of the supernodes of a factor that is drawn.
    pub most: usize,
}

/// Whether the fill of each panel is drawn, and not left out.
#[derive(Clone, Copy)]
pub struct Drawn {
    /// That of the matrix as it stands.
    pub before: bool,
    /// That of the matrix in its order.
    pub after: bool,
}

/// The kind of each cell of a panel, by its entries and its fill, unless that is left out.
fn panel_kinds<A: Allocator>(
    alloc: A,
    entries: &Grid<A>,
    fill: &Option<Grid<A>>,
) -> Result<Vec<u8, A>, AllocError>
    ensures { IfOk result (λ kinds. AreKinds entries.now.marks.items (marks_of fill.now) kinds.items) }
{
    match fill {
        Some(fill) => kinds_of(alloc, entries.marks(), fill.marks()),
        None => kinds_of(alloc, entries.marks(), &[]),
    }
}

/// The panel of a column form in an order of its rows, and how many cells are in a line and rows in a cell.
fn form_panel<A: Allocator + Copy>(
    alloc: A,
    matrix: &Matrix<A>,
    p: &[usize],
    mirrored: bool,
    source: &Source<'_>,
) -> Result<(Panel<A>, usize, usize), Cause>
    requires { IsInput (pos matrix.now.n) (pos matrix.now.n) (map pos matrix.now.a_p.items)
        (map pos matrix.now.a_i.items) }
    ensures panel { IfOk result (λ made. IsPanel A matrix.now.n matrix.now.a_p.items matrix.now.a_i.items p.now mirrored
        source.now.edges made.0) }
    ensures side { IfOk result (λ made. made.1 ≡ lines_for matrix.now.n) }
{
    let (n, a_p, a_i) = (matrix.n, &matrix.a_p, &matrix.a_i);
    let Some(places) = places(alloc, n, p)? else {
        return Err(Cause::Form);
    };
    let need = need_under(alloc, matrix, p).map_err(cause_of)?;
    let entries = entry_grid(alloc, n, a_p, a_i, &places, mirrored)?;
    let fill = drawn_fill(alloc, n, a_p, a_i, p, source.most).map_err(cause_of)?;
    let panel = Panel {
        kinds: panel_kinds(alloc, &entries, &fill)?,
        fill: need.lnz.saturating_sub(source.edges as u128),
        has_fill: fill.is_some(),
    };
    Ok((panel, entries.side(), entries.step()))
}

/// Draws a column form.
fn draw_form<W: Write, A: Allocator + Copy>(
    alloc: A,
    matrix: &Matrix<A>,
    p: &[usize],
    source: &Source<'_>,
    out: &mut W,
) -> Result<Drawn, Cause>
    requires { IsInput (pos matrix.now.n) (pos matrix.now.n) (map pos matrix.now.a_p.items)
        (map pos matrix.now.a_i.items) }
    ensures { IfOk result (λ drawn. DrawsMatrix matrix.now p.now source.now.symmetric source.now.edges drawn
        (W.contents out.old) (W.contents out.new)) }
{
    let standing = standing_order(alloc, matrix.n)?;
    let (before, side, step) = form_panel(alloc, matrix, &standing, source.symmetric, source)?;
    let (after, _, _) = form_panel(alloc, matrix, p, true, source)?;
    let subject = Subject {
        name: source.name,
        n: matrix.n,
        entries: matrix.a_i.len(),
        edges: source.edges,
        side,
        step,
    };
    write_drawing(subject, &before, &after, out)?;
    Ok(Drawn {
        before: before.has_fill,
        after: after.has_fill,
    })
}

/// Draws a matrix as it stands, or `A + A'` where that is asked for, and, beside it, `A + A'` in an order of its rows:
/// row `p[k]` stands at place `k`. The fill of each panel is that of the exact factor under its order; it is left out
/// where that has too many rows below the blocks of its supernodes.
///
/// # Errors
///
/// `Form` where the matrix is no column form, or `p` is no permutation of its rows; `Memory` where memory was refused;
/// and `Write` where the writer failed. Before a fault of the first two kinds nothing is written, but where memory was
/// refused to the writer.
pub fn write_picture<W: Write, A: Allocator + Copy>(
    alloc: A,
    matrix: &Matrix<A>,
    p: &[usize],
    source: &Source<'_>,
    out: &mut W,
) -> Result<Drawn, Cause>
    ensures { IfOk result (λ drawn. DrawsMatrix matrix.now p.now source.now.symmetric source.now.edges drawn
        (W.contents out.old) (W.contents out.new)) }
{
    match valid(matrix.n, matrix.n, &matrix.a_p, &matrix.a_i) {
        Status::OK => draw_form(alloc, matrix, p, source, out),
        Status::OkButJumbled => draw_form(alloc, matrix, p, source, out),
        _ => Err(Cause::Form),
    }
}
