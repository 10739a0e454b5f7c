// Reading numbers of the caller's integer type, and making them. Later proofs speak of the integers alone, and never of
// the laws of generic numbers. Links and `flip` stand here too, and the shares of a front in the figures, which follow
// the AMD user guide.

ghost use Rattle.std.specs.Prelude.{◌≡◌, ◌<◌, ◌≤◌, ◌^◌, ◌↔◌, ◌<ℤ◌, ◌-ℤ◌, IsTrue, length, map, negsuc, pos, slice_index};
ghost use Rattle.std.specs.Prelude.{slice_set};
ghost use Rattle.std.specs.Prelude.{unsigned_abs};
ghost use Rattle.std.specs.Int.{FitsUnsignedBits};
ghost use Rattle.num_traits.specs.Laws.{Checks, ChecksUnsigned};
ghost use Rattle.amd_model.specs.Figures.{cut, entries, front_sum, ldl_steps, lu_steps};
ghost use Rattle.amd_model.specs.Input.Columns.{at};
ghost use Rattle.amd_types.specs.Naturals.{naturals};
ghost use Rattle.amd_types.specs.Links.{named};

use crate::index::Index;

/// The number at a place, which is below the length of `numbers`.
#[inline]
pub fn value_at<I: Index>(numbers: &[I], place: usize) -> I
    requires { place < length numbers.now }
    ensures { I.value result ≡ at (map I.value numbers.now) place }
{
    numbers[place]
}

/// The number as a count, or `None` where it is negative or exceeds `usize::MAX`.
#[inline]
pub fn to_count<I: Index>(number: I) -> Option<usize>
    ensures { ChecksUnsigned 64 (I.value number) result }
{
    number.to_count()
}

/// Whether a number is below another one.
#[inline]
pub fn is_below<I: Index>(a: I, b: I) -> bool
    ensures { IsTrue result ↔ (I.value a <ℤ I.value b) }
{
    a.is_below(b)
}

/// Whether a number is below 0.
#[inline]
pub fn is_negative<I: Index>(number: I) -> bool
    ensures { IsTrue result ↔ (I.value number <ℤ pos 0) }
{
    number.is_negative()
}

/// The number of the caller's type that a count is, or `None` where the type does not have it.
#[inline]
pub fn from_count<I: Index>(count: usize) -> Option<I>
    ensures { Checks I.value I.fits (pos count) result }
{
    I::from_count(count)
}

/// The count that a number is, where it is known to be one: the number is in `0..=usize::MAX`.
#[inline]
pub fn known_count<I: Index>(number: I) -> usize
    requires { FitsUnsignedBits 64 (I.value number) }
    ensures { result ≡ unsigned_abs (I.value number) }
{
    number.known_count()
}

/// The count at a place, where the number there is known to be one.
///
/// `place` is below the length of `numbers`, and the number there is in `0..=usize::MAX`.
#[inline]
pub fn count_at<I: Index>(numbers: &[I], place: usize) -> usize
    requires within { place < length numbers.now }
    requires fits { FitsUnsignedBits 64 (at (map I.value numbers.now) place) }
    ensures value { pos result ≡ at (map I.value numbers.now) place }
    ensures count { result ≡ slice_index (naturals (map I.value numbers.now)) place }
{
    known_count(value_at(numbers, place))
}

/// A figure, or the maximum count where the figure exceeds it.
#[tactic(auto, unfolding(amd_model::specs::Figures::cut))]
fn cut_to_count(figure: u128) -> usize
    ensures { result ≡ cut figure }
{
    figure.min(usize::MAX as u128) as usize
}

/// The maximum count of rows in the block of a small front, and of rows outside.
const SMALL_FRONT: usize = 1 << 20;

/// The shares of a front with few rows: as `front_counts`, but each is exact, as no term exceeds the maximum count.
fn small_front_counts(f: usize, r: usize) -> (usize, usize, usize)
    requires some { 0 < f }
    requires few { f ≤ 2 ^ 20 }
    requires few_outside { r ≤ 2 ^ 20 }
    ensures lnz { result.0 ≡ front_sum entries f r }
    ensures ldl { result.1 ≡ front_sum ldl_steps f r }
    ensures lu { result.2 ≡ front_sum lu_steps f r }
{
    if f == 1 {
        // Most fronts have one row in their block.
        let square = r * r;
        return (r, (square + r) / 2, square);
    }
    let last = f - 1;
    let border = f * r;
    let pairs = f * last / 2;
    let lnz = border + pairs;
    let lu = border * (r + last) + pairs * (2 * f - 1) / 3;
    (lnz, (lu + lnz) / 2, lu)
}

/// The shares of any front that has rows: as `front_counts`, by sums and products of 128 bits.
fn wide_front_counts(f: usize, r: usize) -> (usize, usize, usize)
    requires { 0 < f }
    ensures lnz { result.0 ≡ cut (front_sum entries f r) }
    ensures ldl { result.1 ≡ cut (front_sum ldl_steps f r) }
    ensures lu { result.2 ≡ cut (front_sum lu_steps f r) }
{
    let rows = f as u128;
    let outside = r as u128;
    let last = rows - 1;
    let border = rows * outside;
    let pairs = rows * last / 2;
    let lnz = border.saturating_add(pairs);
    // A third of a product that saturates still exceeds the maximum count, and so does the half of such a sum.
    let squares = pairs.saturating_mul(2 * rows - 1) / 3;
    let lu = border
        .saturating_mul(outside + last)
        .saturating_add(squares);
    let ldl = lu.saturating_add(lnz) / 2;
    (cut_to_count(lnz), cut_to_count(ldl), cut_to_count(lu))
}

/// The shares of a front in the figures, where `f` rows are in its block and `r` rows outside.
///
/// They are its entries below the diagonal, and its multiply-subtract steps in a factorization `LDL'` and in a
/// factorization `LU`: the sums of `c`, of `c (c + 1) / 2` and of `c^2` over the columns, where `c` runs from `r` to
/// `r + f - 1`. Any `f` and `r` are allowed, and each sum is exact up to `usize::MAX`, which stands for all that exceed
/// it.
///
/// Source: AMD user guide.
pub fn front_counts(f: usize, r: usize) -> (usize, usize, usize)
    ensures lnz { result.0 ≡ cut (front_sum entries f r) }
    ensures ldl { result.1 ≡ cut (front_sum ldl_steps f r) }
    ensures lu { result.2 ≡ cut (front_sum lu_steps f r) }
{
    if f == 0 {
        (0, 0, 0)
    } else if f <= SMALL_FRONT && r <= SMALL_FRONT {
        small_front_counts(f, r)
    } else {
        wide_front_counts(f, r)
    }
}

/// No place: the end of a list of links, and what an element without a parent has as parent.
pub const EMPTY: isize = -1;

/// The mark of a number, and the number of a mark: `-2 - i`.
///
/// `i` is below `isize::MAX`, which alone has no mark.
///
/// Source: Amestoy, Davis and Duff 2004 (`FLIP`).
#[inline]
pub fn flip(i: isize) -> isize
    requires { i <ℤ pos 9223372036854775807 }
    ensures { result ≡ negsuc 1 -ℤ i }
{
    -2 - i
}

/// The place that the link at a place names, or `None` where the link is negative.
///
/// `place` is below the length of `links`. Any links are allowed.
#[inline]
pub fn link_at(links: &[isize], place: usize) -> Option<usize>
    requires { place < length links.now }
    ensures { result ≡ named (at links.now place) }
{
    usize::try_from(links[place]).ok()
}

/// Makes the link at a place name another place, and leaves the other links as they are.
///
/// `place` is below the length of `links`, and `to` is below 2^63.
#[inline]
pub fn set_link(links: &mut [isize], place: usize, to: usize)
    requires within { place < length links.old }
    requires fits { to < 2 ^ 63 }
    ensures { links.new ≡ slice_set links.old place (pos to) }
{
    links[place] = to as isize;
}

/// Makes the link at a place the same as one of another list, and leaves the other links as they are.
///
/// `place` is below the length of `links`, and `other` is below that of `from`. Any link is copied, negative or not.
#[inline]
pub fn copy_link(links: &mut [isize], place: usize, from: &[isize], other: usize)
    requires within { place < length links.old }
    requires other_within { other < length from.now }
    ensures { links.new ≡ slice_set links.old place (at from.now other) }
{
    links[place] = from[other];
}
