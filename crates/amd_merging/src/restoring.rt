// The last pass over a front: the marks of its classes are taken off, each class gets its bound and its place in the
// lists by bound, its bucket is emptied, and the list of the new element keeps the classes alone. Source: Amestoy,
// Davis and Duff 1996 (restored degree lists).

ghost use Rattle.std.specs.Prelude.{◌+◌, ◌-◌, ◌<◌, ◌^◌, ◌≡◌, ◌≤◌, cond, length, slice_set, nat_lt, min};
ghost use Rattle.amd_words.specs.Sides.{lasts};
ghost use Rattle.amd_words.specs.Words.{num};
ghost use Rattle.amd_lists.specs.Lengths.{row_count};
ghost use Rattle.amd_merging.specs.Classes.{placing_of};
ghost use Rattle.amd_merging.specs.Effects.{PlacesClass, RestoresFront};
ghost use Rattle.amd_lists.specs.Sizes.{bucket_count};
ghost use Rattle.amd_merging.specs.Merging.{bucket_of};
ghost use Rattle.amd_merging.specs.Premises.{CanPlaceClass, CanRestore};

use crate::buckets::bucket_at;
use amd_lists::chains::put_head;
use amd_words::sides::{Sides, row_count};
use amd_words::words::{is_marked, leave, named};
use amd_words::{Cell, Signed, Unsigned, Word, cell_at, copy_word, put_cell};

/// A front whose classes are placed.
#[derive(Drop)]
pub struct Front {
    /// Where its list starts.
    pub from: usize,
    /// The number of words of its list.
    pub count: usize,
    /// The number of rows of its classes.
    pub border: usize,
    /// The number of all rows that are left.
    pub left: usize,
}

/// The bound of a class of `size` rows, from the number of rows that it reaches outside the front, the rows of the
/// border, and the rows that are left.
fn new_bound(reach: usize, size: usize, border: usize, left: usize) -> usize
    requires order { (size ≤ border) × (border ≤ left) }
    requires fits { reach + border < 2 ^ 64 }
    ensures { result ≡ min (reach + (border - size)) (left - size) }
{
    (reach + (border - size)).min(left - size)
}

/// Empties the bucket of a class of a front whose list has `count` words. Where there is one at most, no bucket is
/// used.
fn empty_bucket<U: Unsigned>(hash: &mut [Cell<U>], sides: &[Sides<U>], i: usize, count: usize)
    requires class { (i < row_count sides.now) × (num (lasts sides.now) i < row_count sides.now) }
    requires long { length hash.old ≡ bucket_count (row_count sides.now) }
    requires short { row_count sides.now ≤ U.MOST }
    ensures { hash.new ≡ cond (nat_lt 1 count) (slice_set hash.old (bucket_of count (lasts sides.now) i)
        (row_count sides.now)) hash.old }
{
    if count > 1 {
        put_cell(hash, bucket_at(sides, i, count), row_count(sides));
    }
}

/// Takes the mark off a class of a front, empties its bucket if buckets are used, and puts it at the head of the list
/// of its new bound. Returns that bound.
fn place_class<S: Signed, U: Unsigned>(
    nv: &mut [Word<S>],
    degree: &mut [Cell<U>],
    head: &mut [Cell<U>],
    sides: &mut [Sides<U>],
    hash: &mut [Cell<U>],
    front: &Front,
    i: usize,
) -> usize
    requires { CanPlaceClass S.MOST U.MOST front.now i (placing_of nv.old degree.old head.old sides.old hash.old) }
    ensures { PlacesClass front.now i (placing_of nv.old degree.old head.old sides.old hash.old)
        (placing_of nv.new degree.new head.new sides.new hash.new) result }
{
    let size = leave(nv, i);
    empty_bucket(hash, sides, i, front.count);
    let bound = new_bound(cell_at(degree, i), size, front.border, front.left);
    put_head(head, sides, degree, i, bound);
    bound
}

/// Restores the classes that are left of a front: each is marked no more, has its bound in the lists by bound, and its
/// bucket is empty, which it is before where the list of the front names one row at most. The classes are kept in the
/// words of that list, in their order. Returns where they end, and the least of `least` and their bounds.
pub fn restore<S: Signed, U: Unsigned>(
    iw: &mut [Word<S>],
    nv: &mut [Word<S>],
    degree: &mut [Cell<U>],
    head: &mut [Cell<U>],
    sides: &mut [Sides<U>],
    hash: &mut [Cell<U>],
    front: &Front,
    least: usize,
) -> (usize, usize)
    requires { CanRestore S.MOST U.MOST front.now iw.old (placing_of nv.old degree.old head.old sides.old hash.old) }
    ensures { RestoresFront front.now least iw.old (placing_of nv.old degree.old head.old sides.old hash.old) iw.new
        (placing_of nv.new degree.new head.new sides.new hash.new) result.0 result.1 }
{
    let mut end = front.from;
    let mut low = least;
    for p in front.from..front.from + front.count {
        let i = named(iw, p);
        if is_marked(nv, i) {
            let bound = place_class(nv, degree, head, sides, hash, front, i);
            low = low.min(bound);
            copy_word(iw, p, end);
            end += 1;
        }
    }
    (end, low)
}
