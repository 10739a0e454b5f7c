// The blocks of the elements in the order of a listing: which element is listed at each place, and where its block
// starts among the rows. Source: Amestoy, Davis and Duff 2004.

ghost use Rattle.std.specs.Prelude.{◌≡◌, ◌<◌, ◌≤◌, ℕ, List, length, map, slice_index, pos};
ghost use Rattle.amd_model.specs.Listing.{Tree};
ghost use Rattle.amd_model.specs.State.{Home};
ghost use Rattle.amd_words.specs.Words.{word, size_of};
ghost use Rattle.amd_postorder.specs.Trees.{IsPostorderOf};
ghost use Rattle.amd_postorder.specs.CellLinks.{figure_links};
ghost use Rattle.amd_listing.specs.Blocks.{AreElements, AreStarts, BeginWith};
ghost use Rattle.amd_listing.specs.Placing.{PivotsPlaced};

use crate::rows::put_listed;
use amd_postorder::link::Link;
use amd_words::{Cell, Signed, Unsigned, Word, cell_at, put_cell, row_at};

/// Writes the element of each place of a listing. Returns how many elements there are.
pub fn by_place<U: Unsigned>(order: &[Cell<U>], elements: &mut [Cell<U>]) -> usize
    requires room { length elements.old ≡ length order.now }
    requires narrow { length order.now ≤ U.MOST }
    requires listed { (t : Tree) × (o : IsPostorderOf t (figure_links U.MOST order.now)) ×
        ((k : ℕ) → k < length o.listing → slice_index o.listing k < t.size) }
    ensures room { length elements.new ≡ length elements.old }
    ensures elements { (t : Tree) → (o : IsPostorderOf t (figure_links U.MOST order.now)) →
        ((k : ℕ) → k < length o.listing → slice_index o.listing k < t.size) → BeginWith elements.new result o.listing }
{
    let mut count = 0;
    'elements: for e in 0..order.len() {
        if let Some(place) = Link::link_at(order, e) {
            put_cell(elements, place, e);
            count += 1;
        }
    }
    count
}

/// Writes where the block of each of the first `count` elements starts, one after another, and puts the element at the
/// last place of its block, in the listing and its inverse. Answers where the last block ends.
pub fn block_starts<S: Signed, U: Unsigned>(
    nv: &[Word<S>],
    elements: &[Cell<U>],
    count: usize,
    starts: &mut [Cell<U>],
    p: &mut [Cell<U>],
    p_inv: &mut [Cell<U>],
) -> usize
    requires lengths { (length elements.now ≡ length nv.now) × (length starts.old ≡ length nv.now) }
    requires more_lengths { (length p.old ≡ length nv.now) × (length p_inv.old ≡ length nv.now) }
    requires narrow { length nv.now ≤ U.MOST }
    requires counts { (v : ℕ) → word nv.now v ≡ pos (size_of nv.now v) }
    requires blocks { (home : ℕ → Home) × (es : List ℕ) × AreElements (length nv.now) home es nv.now ×
        BeginWith elements.now count es }
    ensures starts { (home : ℕ → Home) (es : List ℕ) → AreElements (length nv.now) home es nv.now →
        BeginWith elements.now count es → AreStarts (length nv.now) es nv.now starts.new result }
    ensures pivots { PivotsPlaced nv.now starts.new (map pos p.new) (map pos p_inv.new) }
{
    let mut total = 0;
    'places: for k in 0..count {
        let e = cell_at(elements, k);
        put_cell(starts, e, total);
        total += row_at(nv, e);
        put_listed(p, p_inv, e, total - 1);
    }
    total
}
