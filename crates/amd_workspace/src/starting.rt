// The start of an elimination in a workspace that is laid: each row that is neither held last nor empty is a class by
// itself, in the list of its degree, and each other empty row is an element. Source: Amestoy, Davis and Duff 1996; the
// AMD user guide on dense rows.

ghost use Rattle.std.specs.Prelude.{◌≡◌, ◌<◌, ◌≤◌, ◌+◌, ◌==◌, ◌||◌, ℕ, ℤ, pos, negsuc, true, false, List, ◌∷◌, cond};
ghost use Rattle.std.specs.Prelude.{nat_lt, length, slice_set};
ghost use Rattle.std.specs.Option.{option_copied};
ghost use Rattle.amd_words.specs.Sides.{nexts, lasts};
ghost use Rattle.amd_model.specs.Below.{count_below};
ghost use Rattle.amd_model.specs.Input.Held.{HasMarks, is_marked};
ghost use Rattle.amd_model.specs.Quotient.{has};
ghost use Rattle.amd_words.specs.Words.{num, flip_of};
ghost use Rattle.amd_lists.specs.Chains.{DegreeLists};
ghost use Rattle.amd_lists.specs.Lengths.{HasLinks, HasSides, HasWords};
ghost use Rattle.amd_workspace.specs.Starting.{BeginsRows, KeepsRows, held_in, rows_in};
ghost use Rattle.amd_workspace.specs.Classes.{class_in, HasClasses};

use crate::rows::RowLists;
use amd_lists::chains::put_head;
use amd_types::held::is_held;
use amd_words::sides::Sides;
use amd_words::words::put_flip;
use amd_words::{Cell, Signed, Unsigned, Word, cell_at, put_cell, put_word};

/// Sets aside a row that is held last, or an empty one, which is an element by itself: it has no list.
fn put_aside<S: Signed, P: Signed, U: Unsigned>(
    pe: &mut [Word<P>],
    e_len: &mut [Word<P>],
    nv: &mut [Word<S>],
    len: &mut [Cell<U>],
    degree: &mut [Cell<U>],
    w: &mut [Cell<U>],
    i: usize,
    held: bool,
)
    requires words { (i < length pe.old) × (i < length e_len.old) × (i < length nv.old) }
    requires cells { (i < length len.old) × (i < length degree.old) × (i < length w.old) }
    requires narrow { 3 ≤ P.MOST }
    ensures starts { pe.new ≡ slice_set pe.old i (negsuc 0) }
    ensures counts { e_len.new ≡ slice_set e_len.old i (cond held (negsuc 0) (flip_of 1)) }
    ensures sizes { nv.new ≡ slice_set nv.old i (pos 0) }
    ensures lengths { len.new ≡ slice_set len.old i 0 }
    ensures bounds { degree.new ≡ slice_set degree.old i 0 }
    ensures counters { w.new ≡ slice_set w.old i 0 }
{
    put_word(pe, i, -1);
    if held {
        put_word(e_len, i, -1);
    } else {
        put_flip(e_len, i, 1);
    }
    put_word(nv, i, 0);
    put_cell(len, i, 0);
    put_cell(degree, i, 0);
    put_cell(w, i, 0);
}

/// Makes a row a class by itself, and puts it at the head of the list of its degree.
fn place_row<S: Signed, P: Signed, U: Unsigned>(
    e_len: &mut [Word<P>],
    nv: &mut [Word<S>],
    degree: &mut [Cell<U>],
    w: &mut [Cell<U>],
    head: &mut [Cell<U>],
    sides: &mut [Sides<U>],
    i: usize,
    count: usize,
)
    requires words { (i < length e_len.old) × (i < length nv.old) × (i < length w.old) }
    requires lengths { (length head.old ≡ length (nexts sides.old)) × (length degree.old ≡ length (nexts sides.old)) }
    requires narrow { (1 ≤ S.MOST) × (length (nexts sides.old) ≤ U.MOST) }
    requires row { (i < length (nexts sides.old)) × (count < length (nexts sides.old)) }
    ensures counts { e_len.new ≡ slice_set e_len.old i (pos 0) }
    ensures sizes { nv.new ≡ slice_set nv.old i (pos 1) }
    ensures bounds { degree.new ≡ slice_set degree.old i count }
    ensures counters { w.new ≡ slice_set w.old i 1 }
    ensures lengths { HasLinks (length (nexts sides.old)) head.new (nexts sides.new) (lasts sides.new) }
    ensures linked { (lists : ℕ → List ℕ) → ((b : ℕ) → b < length (nexts sides.old) → has (lists b) i ≡ false) →
        DegreeLists (length (nexts sides.old)) head.old (nexts sides.old) (lasts sides.old) degree.old lists →
        DegreeLists (length (nexts sides.old)) head.new (nexts sides.new) (lasts sides.new) degree.new
        (λ b. cond (b == count) (i ∷ lists b) (lists b)) }
{
    put_word(e_len, i, 0);
    put_word(nv, i, 1);
    put_cell(w, i, 1);
    put_head(head, sides, degree, i, count);
}

/// Whether a row of `count` neighbours is held last.
fn is_held_last(hold: Option<&[bool]>, i: usize, count: usize, threshold: usize) -> bool
    requires within { (n : ℕ) × (i < n) × HasMarks (option_copied hold) n }
    ensures { result ≡ (is_marked (option_copied hold.entry) i || nat_lt threshold count) }
{
    is_held(hold, i) || count > threshold
}

/// 1 for what holds, and 0 for what does not.
fn number_of(holds: bool) -> usize
    ensures { result ≡ cond holds 1 0 }
{
    if holds { 1 } else { 0 }
}

/// The number in a cell, of cells that are lent to be written.
fn cell_lent<U: Unsigned>(cells: &mut [Cell<U>], k: usize) -> usize
    requires { k < length cells.old }
    ensures is { result ≡ num cells.old k }
    ensures kept { cells.new ≡ cells.old }
{
    cell_at(cells, k)
}

/// Starts the elimination: `len` has the degree of each row, and `pe` where its list starts. The rows marked in `hold`
/// and those of a degree above the threshold are held last. Answers how many rows are live, and how many are held last.
pub fn begin_rows<S: Signed, P: Signed, U: Unsigned>(
    lists: &mut RowLists<'_, '_, '_, S, P, U>,
    hold: Option<&[bool]>,
    threshold: usize,
) -> (usize, usize)
    requires words { HasWords (length lists.old.len.now) lists.old.pe.now lists.old.e_len.now lists.old.nv.now }
    requires cells { (length lists.old.degree.now ≡ length lists.old.len.now) ×
        (length lists.old.w.now ≡ length lists.old.len.now) }
    requires links { HasSides (length lists.old.len.now) lists.old.head.now lists.old.sides.now }
    requires narrow { (1 ≤ S.MOST) × (length lists.old.len.now + 2 ≤ P.MOST) × (length lists.old.len.now ≤ U.MOST) }
    requires degrees { (i : ℕ) → i < length lists.old.len.now →
        num lists.old.len.now i < length lists.old.len.now }
    requires heads { (b : ℕ) → b < length lists.old.len.now →
        length lists.old.len.now ≤ num lists.old.head.now b }
    requires marks { HasMarks (option_copied hold) (length lists.old.len.now) }
    ensures begins { BeginsRows (length lists.old.len.now) (length lists.old.len.now)
        (held_in (option_copied hold.entry) threshold lists.old.len.now) (rows_in lists.old) (rows_in lists.new) }
    ensures lengths { HasSides (length lists.old.len.now) lists.new.head.now lists.new.sides.now }
    ensures linked { HasClasses (option_copied hold.entry) threshold lists.old.len.now lists.new.head.now
        (nexts lists.new.sides.now) (lasts lists.new.sides.now) lists.new.degree.now }
    ensures live { result.0 ≡ count_below (length lists.old.len.now)
        (class_in (option_copied hold.entry) threshold lists.old.len.now) }
    ensures dense { result.1 ≡ count_below (length lists.old.len.now)
        (held_in (option_copied hold.entry) threshold lists.old.len.now) }
    ensures buckets { lists.new.hash.now ≡ lists.old.hash.now }
    ensures loans { KeepsRows lists.old lists.new }
{
    let mut live: usize = 0;
    let mut n_dense: usize = 0;
    'rows: for i in 0..lists.len.len() {
        let count = cell_lent(lists.len, i);
        let held = is_held_last(hold, i, count, threshold);
        let aside = held || count == 0;
        if aside {
            put_aside(
                lists.pe,
                lists.e_len,
                lists.nv,
                lists.len,
                lists.degree,
                lists.w,
                i,
                held,
            );
            n_dense += number_of(held);
        } else {
            place_row(
                lists.e_len,
                lists.nv,
                lists.degree,
                lists.w,
                lists.head,
                lists.sides,
                i,
                count,
            );
            live += 1;
        }
    }
    (live, n_dense)
}
