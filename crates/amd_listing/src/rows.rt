// The rows of a listing: each is put at its place in the block of the element to which its links lead, and those held
// last behind all blocks; links are shortened on the way. Source: Amestoy, Davis and Duff 2004.

ghost use Rattle.std.specs.Prelude.{◌≡◌, ◌<◌, ◌≤◌, ◌+◌, ℕ, List, true, false, length, map, pos, slice_set};
ghost use Rattle.amd_model.specs.State.{Home, Gone, gone_at, live_at};
ghost use Rattle.amd_types.specs.Permutations.{AreInverse};
ghost use Rattle.amd_words.specs.Words.{num, in_front, size_of};
ghost use Rattle.amd_listing.specs.Blocks.{AreElements, AreStarts, listing_of};
ghost use Rattle.amd_listing.specs.Ended.{LinksAre, Shortens};
ghost use Rattle.amd_listing.specs.Placing.{AllPlaced, AreBlocks, PivotsPlaced};

use amd_words::words::{named, names_one, put_row, size_outside};
use amd_words::{Cell, Signed, Unsigned, Word, cell_at, put_cell};

/// The element to which the links from a row lead.
fn root_of<S: Signed, P: Signed>(link: &[Word<P>], nv: &[Word<S>], v: usize) -> usize
    requires led { (home : ℕ → Home) × LinksAre (length nv.now) link.now nv.now home × (gone_at (home v) ≡ true) }
    ensures within { result < length nv.now }
    ensures rows { 0 < size_of nv.now result }
    ensures home { (home : ℕ → Home) → LinksAre (length nv.now) link.now nv.now home → home v ≡ Gone result }
{
    let mut row = v;
    'links: while size_outside(nv, row) == 0 {
        row = named(link, row);
    }
    row
}

/// Links a row and those on the way from it to their element straight to that.
fn shortcut<S: Signed, P: Signed>(link: &mut [Word<P>], nv: &[Word<S>], v: usize, root: usize)
    requires led { (home : ℕ → Home) × LinksAre (length nv.now) link.old nv.now home × (gone_at (home v) ≡ true) }
    requires root { (root < length nv.now) × (0 < size_of nv.now root) }
    requires home { (home : ℕ → Home) → LinksAre (length nv.now) link.old nv.now home → home v ≡ Gone root }
    requires narrow { length nv.now ≤ P.MOST }
    ensures { Shortens nv.now link.old link.new }
{
    let mut row = v;
    'links: while size_outside(nv, row) == 0 {
        let next = named(link, row);
        put_row(link, row, root);
        row = next;
    }
}

/// The element to which the links from a row lead, where the row is no element. Two or more links are shortened.
fn element_of<S: Signed, P: Signed>(link: &mut [Word<P>], nv: &[Word<S>], v: usize) -> usize
    requires led { (home : ℕ → Home) × LinksAre (length nv.now) link.old nv.now home × (gone_at (home v) ≡ true) }
    requires apart { size_of nv.now v ≡ 0 }
    requires narrow { length nv.now ≤ P.MOST }
    ensures within { result < length nv.now }
    ensures rows { 0 < size_of nv.now result }
    ensures home { (home : ℕ → Home) → LinksAre (length nv.now) link.old nv.now home → home v ≡ Gone result }
    ensures shortens { Shortens nv.now link.old link.new }
{
    let next = named(link, v);
    if size_outside(nv, next) != 0 {
        return next;
    }
    let root = root_of(link, nv, next);
    shortcut(link, nv, v, root);
    root
}

/// Takes the next place of the block of an element.
fn take_place<U: Unsigned>(place: &mut [Cell<U>], e: usize) -> usize
    requires inside { e < length place.old }
    requires fits { num place.old e + 1 ≤ U.MOST }
    ensures is { result ≡ num place.old e }
    ensures next { place.new ≡ slice_set place.old e (num place.old e + 1) }
{
    let k = cell_at(place, e);
    put_cell(place, e, k + 1);
    k
}

/// Puts a row at a place of the listing.
pub fn put_listed<U: Unsigned>(p: &mut [Cell<U>], p_inv: &mut [Cell<U>], v: usize, k: usize)
    requires inside { (v < length p_inv.old) × (k < length p.old) }
    requires fits { (v ≤ U.MOST) × (k ≤ U.MOST) }
    ensures listed { map pos p.new ≡ slice_set (map pos p.old) k (pos v) }
    ensures inverse { map pos p_inv.new ≡ slice_set (map pos p_inv.old) v (pos k) }
{
    put_cell(p, k, v);
    put_cell(p_inv, v, k);
}

/// Puts the rows that are no element at their places, rising: each at the next place of its block, and those held last
/// behind all blocks.
fn place_others<S: Signed, P: Signed, U: Unsigned>(
    link: &mut [Word<P>],
    nv: &[Word<S>],
    place: &mut [Cell<U>],
    end: usize,
    p: &mut [Cell<U>],
    p_inv: &mut [Cell<U>],
)
    requires lengths { (length p.old ≡ length nv.now) × (length p_inv.old ≡ length nv.now) }
    requires narrow { (length nv.now ≤ P.MOST) × (length nv.now ≤ U.MOST) }
    requires blocks { (home : ℕ → Home) × (elements : List ℕ) × AreBlocks link.old nv.now place.old end home elements }
    requires pivots { PivotsPlaced nv.now place.old (map pos p.old) (map pos p_inv.old) }
    ensures placed { (home : ℕ → Home) (elements : List ℕ) → AreBlocks link.old nv.now place.old end home elements →
        AllPlaced (length nv.now) (listing_of (length nv.now) home elements) (map pos p.new)
        (map pos p_inv.new) }
    ensures shortens { Shortens nv.now link.old link.new }
{
    let mut next = end;
    'rows: for v in 0..nv.len() {
        if size_outside(nv, v) == 0 {
            if names_one(link, v) {
                let e = element_of(link, nv, v);
                let k = take_place(place, e);
                put_listed(p, p_inv, v, k);
            } else {
                put_listed(p, p_inv, v, next);
                next += 1;
            }
        }
    }
}

/// Writes the listing of the blocks of the elements and its inverse: of each block, which starts where `starts` says,
/// the other rows rising before its pivot row, which is there, and from `end` on the rows held last, rising. Links are
/// shortened, so that an element keeps its parent; what `starts` then holds is not said.
pub fn place_rows<S: Signed, P: Signed, U: Unsigned>(
    link: &mut [Word<P>],
    nv: &[Word<S>],
    starts: &mut [Cell<U>],
    end: usize,
    p: &mut [Cell<U>],
    p_inv: &mut [Cell<U>],
)
    requires lengths { (length link.old ≡ length nv.now) × (length starts.old ≡ length nv.now) ×
        (length p.old ≡ length nv.now) × (length p_inv.old ≡ length nv.now) }
    requires narrow { (length nv.now + 2 ≤ P.MOST) × (length nv.now + 2 ≤ U.MOST) }
    requires blocks { (home : ℕ → Home) × (elements : List ℕ) × LinksAre (length nv.now) link.old nv.now home ×
        AreElements (length nv.now) home elements nv.now × AreStarts (length nv.now) elements nv.now starts.old end ×
        ((v : ℕ) → live_at (home v) ≡ false) }
    requires pivots { PivotsPlaced nv.now starts.old (map pos p.old) (map pos p_inv.old) }
    ensures rows { (home : ℕ → Home) (elements : List ℕ) → LinksAre (length nv.now) link.old nv.now home →
        AreElements (length nv.now) home elements nv.now → AreStarts (length nv.now) elements nv.now starts.old end →
        ((v : ℕ) → live_at (home v) ≡ false) → map pos p.new ≡ map pos (listing_of (length nv.now) home elements) }
    ensures inverse { AreInverse (length nv.now) (map pos p.new) (map pos p_inv.new) }
    ensures shortens { Shortens nv.now link.old link.new }
{
    place_others(link, nv, starts, end, p, p_inv);
}
