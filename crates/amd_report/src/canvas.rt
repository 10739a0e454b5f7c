// The cells of a picture of a tree of supernodes: each shows the largest front of the blocks that lie in it. A cell is
// one column on one level, or some of each where there are more than the picture has.

ghost use Rattle.std.specs.Prelude.{◌≡◌, ◌≢◌, ◌<◌, ◌≤◌, ◌+◌, ◌-◌, ◌⊎◌, ℕ, List, Option, IfOk, fold, length, max, min};
ghost use Rattle.std.specs.Prelude.{slice_index};
ghost use Rattle.amd_report.specs.Canvases.{Paints, SameCanvas, ShowsFronts, cell_on, front_of};
ghost use Rattle.amd_report.specs.Layouts.{IsLayout};

use crate::layout::Layout;
use std::alloc::{AllocError, Allocator};

/// The most cells in a line, which is the width of a tree in pixels.
pub const ACROSS: usize = 820;

/// The most lines.
pub const DOWN: usize = 120;

/// The cells.
#[derive(Drop)]
pub struct Canvas<A: Allocator> {
    /// The columns that fall into a cell.
    pub across: usize,
    /// The levels that fall into a line.
    pub down: usize,
    /// The cells in a line.
    pub side: usize,
    /// The lines.
    pub lines: usize,
    /// The largest front in each cell, line by line; 0 where no block lies.
    pub fronts: Vec<usize, A>,
}

/// A number of a list; 0 past its end.
fn number_at(numbers: &[usize], k: usize) -> usize
    ensures { result ≡ slice_index numbers.now k }
{
    numbers.get(k).copied().unwrap_or(0)
}

/// How many of so many things fall into one of the parts, of which there are at most `parts`; at least one.
fn share(things: usize, parts: usize) -> usize
    ensures { 0 < result }
{
    things.div_ceil(parts.max(1)).max(1)
}

/// How many rows the front of a supernode has: its columns, and the rows below its block.
pub fn front_of(first: &[usize], ptr: &[usize], s: usize) -> usize
    ensures { result ≡ front_of first.now ptr.now s }
{
    let next = s.saturating_add(1);
    let columns = number_at(first, next).saturating_sub(number_at(first, s));
    let below = number_at(ptr, next).saturating_sub(number_at(ptr, s));
    columns.saturating_add(below)
}

/// Raises the cells from `from` on, up to `last`, to a front.
fn raise(fronts: &mut [usize], from: usize, last: usize, front: usize)
    ensures raised { (cell : ℕ) → from ≤ cell → cell ≤ last → cell < length fronts.old →
        slice_index fronts.new cell ≡ max (slice_index fronts.old cell) front }
    ensures others { (cell : ℕ) → (cell < from) ⊎ (last < cell) →
        slice_index fronts.new cell ≡ slice_index fronts.old cell }
{
    let end = last.saturating_add(1).min(fronts.len());
    'cells: for cell in from..end {
        fronts[cell] = fronts[cell].max(front);
    }
}

impl<A: Allocator> Canvas<A> {
    /// The cell of a column on a level.
    fn cell(&self, level: usize, column: usize) -> usize
        ensures { result ≡ min (cell_on self.now.side self.now.across self.now.down level column) 18446744073709551615 }
    {
        let above = level.saturating_sub(1);
        let line = (above / self.down.max(1)).saturating_mul(self.side);
        line.saturating_add(column / self.across.max(1))
    }

    /// Paints a block that has a front of so many rows.
    fn paint(&mut self, left: usize, width: usize, level: usize, front: usize)
        requires { left + width ≤ 18446744073709551615 }
        ensures same { SameCanvas self.old self.new }
        ensures paints { (cell : ℕ) → Paints self.old self.new left width level front cell }
    {
        if width > 0 {
            let from = self.cell(level, left);
            let last = self.cell(level, left + (width - 1));
            raise(&mut self.fronts, from, last, front);
        }
    }
}

/// A canvas without blocks, for so many columns on so many levels.
fn blank<A: Allocator>(alloc: A, columns: usize, levels: usize) -> Result<Canvas<A>, AllocError>
    ensures { IfOk result (λ c. (cell : ℕ) → slice_index c.fronts.items cell ≡ 0) }
{
    let across = share(columns, ACROSS);
    let down = share(levels, DOWN);
    let side = columns.div_ceil(across);
    let lines = levels.div_ceil(down);
    let fronts = vec![in alloc; 0; side.saturating_mul(lines)]?;
    Ok(Canvas {
        across,
        down,
        side,
        lines,
        fronts,
    })
}

/// The greatest one of some numbers; 0 where there are none.
#[tactic(auto, using(std::proofs::lemmas::List::Sums::fold_more))]
pub fn greatest(numbers: &[usize]) -> usize
    ensures { result ≡ fold max 0 numbers.now }
{
    let mut most = 0;
    'numbers: for &number in numbers {
        most = most.max(number);
    }
    most
}

/// Paints the supernodes that begin at these columns and have these pointers to the rows below their blocks.
///
/// # Errors
///
/// A refused request for memory.
pub fn canvas_of<A: Allocator + Copy>(
    alloc: A,
    layout: &Layout<A>,
    first: &[usize],
    ptr: &[usize],
) -> Result<Canvas<A>, AllocError>
    requires { (parents : List (Option ℕ)) × IsLayout first.now parents layout.now.left.items layout.now.width.items
        layout.now.level.items }
    ensures { IfOk result (λ c. ShowsFronts c first.now ptr.now layout.now.left.items layout.now.width.items
        layout.now.level.items (length layout.now.width.items - 1)) }
{
    let count = layout.width.len().saturating_sub(1);
    let columns = number_at(&layout.width, count);
    let mut canvas = blank(alloc, columns, greatest(&layout.level))?;
    'supernodes: for s in 0..count {
        let (left, width) = (number_at(&layout.left, s), number_at(&layout.width, s));
        let level = number_at(&layout.level, s);
        canvas.paint(left, width, level, front_of(first, ptr, s));
    }
    Ok(canvas)
}
