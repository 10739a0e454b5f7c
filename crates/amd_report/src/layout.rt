// Where the supernodes of a factor lie in a picture of their tree: on which level, from which column on, and how many
// columns wide. A block is as wide as its subtree has columns. The blocks under it lie one after another from its left
// edge on, and its own columns behind them: so columns stand in a postorder of the elimination tree.

ghost use Rattle.std.specs.Prelude.{◌≡◌, ◌<◌, ◌≤◌, ◌+◌, ℕ, List, true, IfOk, OnOk, length, slice_index};
ghost use Rattle.amd_count_laws.specs.Parts.{part_size};
ghost use Rattle.amd_count_laws.specs.Rising.{GoesUp};
ghost use Rattle.amd_report.specs.Layouts.{AddsUnder, AreLaid, AreWidths, GoesToParents, IsLayout, IsOver};

use std::alloc::{AllocError, Allocator};

/// Where each supernode lies; and behind them, over all, what has no parent above it.
#[derive(Drop)]
pub struct Layout<A: Allocator> {
    /// The column that each begins at.
    pub left: Vec<usize, A>,
    /// How many columns each is wide.
    pub width: Vec<usize, A>,
    /// How many levels stand above each, with what is over all.
    pub level: Vec<usize, A>,
}

/// Where supernode `s` goes up to: its parent, or the number of supernodes where it has none behind it.
fn up_from(parents: &[Option<usize>], s: usize) -> usize
    requires { s < length parents.now }
    ensures rises { s < result }
    ensures most { result ≤ length parents.now }
    ensures parent { (q : ℕ) → IsOver parents.now s q → result ≡ q }
{
    match parents.get(s).copied().unwrap_or(None) {
        Some(parent) if s < parent && parent < parents.len() => parent,
        _ => parents.len(),
    }
}

/// Writes where each supernode goes up to.
fn go_up(parents: &[Option<usize>], up: &mut [usize])
    requires { length up.old ≡ length parents.now }
    ensures rises { GoesUp up.new }
    ensures parents { GoesToParents parents.now up.new }
{
    'supernodes: for s in 0..up.len() {
        up[s] = up_from(parents, s);
    }
}

/// A number of a list; 0 past its end.
fn number_at(numbers: &[usize], k: usize) -> usize
    ensures { result ≡ slice_index numbers.now k }
{
    numbers.get(k).copied().unwrap_or(0)
}

/// Writes how many columns each supernode has.
fn write_own(first: &[usize], width: &mut [usize])
    ensures { (q : ℕ) → q < length width.old → slice_index width.new q ≡ part_size first.now q }
{
    'supernodes: for s in 0..width.len() {
        let end = number_at(first, s.saturating_add(1));
        width[s] = end.saturating_sub(number_at(first, s));
    }
}

/// Adds the columns under each supernode to those of the one that it goes up to; returns whether each sum is a number
/// of 64 bits.
fn add_up(up: &[usize], width: &mut [usize]) -> bool
    requires rises { GoesUp up.now }
    requires room { length width.old ≡ length up.now + 1 }
    ensures { result ≡ true → AddsUnder up.now width.old width.new }
{
    'supernodes: for s in 0..up.len() {
        let over = up[s];
        let Some(sum) = width[over].checked_add(width[s]) else {
            return false;
        };
        width[over] = sum;
    }
    true
}

/// Lays supernode `s` at the next column of the one that it goes up to; what stands behind is laid.
fn lay_one(
    s: usize,
    up: &[usize],
    width: &[usize],
    left: &mut [usize],
    level: &mut [usize],
    next: &mut [usize],
)
    requires rises { GoesUp up.now }
    requires place { s < length up.now }
    requires laid { (first : List ℕ) × AreWidths first up.now width.now ×
        AreLaid first up.now width.now left.old level.old next.old (s + 1) }
    ensures { (first : List ℕ) → AreWidths first up.now width.now →
        AreLaid first up.now width.now left.old level.old next.old (s + 1) →
        AreLaid first up.now width.now left.new level.new next.new s }
{
    let over = up[s];
    let begin = next[over];
    left[s] = begin;
    next[s] = begin;
    next[over] = begin + width[s];
    level[s] = level[over] + 1;
}

/// Lays all supernodes, from the last one on.
fn lay(up: &[usize], width: &[usize], left: &mut [usize], level: &mut [usize], next: &mut [usize])
    requires rises { GoesUp up.now }
    requires widths { (first : List ℕ) × AreWidths first up.now width.now }
    requires lefts { length left.old ≡ length up.now + 1 }
    requires levels { length level.old ≡ length up.now + 1 }
    requires nexts { length next.old ≡ length up.now + 1 }
    ensures { (first : List ℕ) → AreWidths first up.now width.now →
        AreLaid first up.now width.now left.new level.new next.new 0 }
{
    left[up.len()] = 0;
    next[up.len()] = 0;
    level[up.len()] = 0;
    let mut s = up.len();
    'supernodes: while s > 0 {
        s -= 1;
        lay_one(s, up, width, left, level, next);
    }
}

/// Writes where the supernodes lie that begin at these columns and have these parents; `up` and `next` are for the work
/// alone. Returns whether the number of columns is one of 64 bits.
fn write_layout(
    first: &[usize],
    parents: &[Option<usize>],
    up: &mut [usize],
    width: &mut [usize],
    left: &mut [usize],
    level: &mut [usize],
    next: &mut [usize],
) -> bool
    requires ups { length up.old ≡ length parents.now }
    requires widths { length width.old ≡ length parents.now + 1 }
    requires lefts { length left.old ≡ length parents.now + 1 }
    requires levels { length level.old ≡ length parents.now + 1 }
    requires nexts { length next.old ≡ length parents.now + 1 }
    ensures { result ≡ true → IsLayout first.now parents.now left.new width.new level.new }
{
    go_up(parents, up);
    write_own(first, width);
    if !add_up(up, width) {
        return false;
    }
    lay(up, width, left, level, next);
    true
}

/// A layout of so many places, in which nothing is laid yet.
fn blank<A: Allocator + Copy>(alloc: A, places: usize) -> Result<Layout<A>, AllocError>
    ensures left { IfOk result (λ l. length l.left.items ≡ places) }
    ensures width { IfOk result (λ l. length l.width.items ≡ places) }
    ensures level { IfOk result (λ l. length l.level.items ≡ places) }
{
    let left = vec![in alloc; 0; places]?;
    let width = vec![in alloc; 0; places]?;
    let level = vec![in alloc; 0; places]?;
    Ok(Layout { left, width, level })
}

/// Lays the supernodes that begin at these columns and have these parents in a layout with places for them and for
/// what is over all.
fn fill_layout<A: Allocator + Copy>(
    alloc: A,
    first: &[usize],
    parents: &[Option<usize>],
    layout: &mut Layout<A>,
) -> Result<(), AllocError>
    requires left { length layout.old.left.items ≡ length parents.now + 1 }
    requires width { length layout.old.width.items ≡ length parents.now + 1 }
    requires level { length layout.old.level.items ≡ length parents.now + 1 }
    ensures { OnOk result (IsLayout first.now parents.now layout.new.left.items layout.new.width.items
        layout.new.level.items) }
{
    let Layout { left, width, level } = layout;
    let mut up = vec![in alloc; 0; parents.len()]?;
    let mut next = vec![in alloc; 0; left.len()]?;
    if !write_layout(first, parents, &mut up, width, left, level, &mut next) {
        return Err(AllocError);
    }
    Ok(())
}

/// Lays the supernodes that begin at these columns and have these parents.
///
/// # Errors
///
/// A refused request for memory.
pub fn layout_of<A: Allocator + Copy>(
    alloc: A,
    first: &[usize],
    parents: &[Option<usize>],
) -> Result<Layout<A>, AllocError>
    ensures { IfOk result (λ l. IsLayout first.now parents.now l.left.items l.width.items l.level.items) }
{
    let Some(places) = parents.len().checked_add(1) else {
        return Err(AllocError);
    };
    let mut layout = blank(alloc, places)?;
    fill_layout(alloc, first, parents, &mut layout)?;
    Ok(layout)
}
