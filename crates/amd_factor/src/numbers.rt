// Places as numbers of an integer type: reading them, and writing them.

ghost use Rattle.std.specs.Prelude.{ℕ, ◌≡◌, ◌<◌, ◌^◌, length, map, pos, slice_index};
ghost use Rattle.amd_types.specs.Naturals.{naturals};
ghost use Rattle.amd_factor.specs.Numbers.{AreNonNegative};

use amd_types::index::Index;
use amd_types::internal::{count_at, from_count};

/// The place that the number at `k` is, which is below the length of `numbers`.
#[inline]
pub fn place_at<N: Index>(numbers: &[N], k: usize) -> usize
    requires numbers { AreNonNegative (map N.value numbers.now) }
    requires within { k < length numbers.now }
    requires small { slice_index (naturals (map N.value numbers.now)) k < 2 ^ 64 }
    ensures { result ≡ slice_index (naturals (map N.value numbers.now)) k }
{
    count_at(numbers, k)
}

/// The number that a place is, which the type has.
#[inline]
pub fn number_of<N: Index>(place: usize) -> N
    requires { N.fits (pos place) }
    ensures { N.value result ≡ pos place }
{
    let Some(number) = from_count(place) else {
        unreachable!()
    };
    number
}

/// Writes places, which the type has, as numbers of it. One place alone, as in most of the lists, is written without
/// the call of a copy that a loop over numbers of the same width becomes.
pub fn write_places<N: Index>(places: &[usize], numbers: &mut [N])
    requires room { length numbers.old ≡ length places.now }
    requires fits { (k : ℕ) → k < length places.now → N.fits (pos (slice_index places.now k)) }
    ensures { map N.value numbers.new ≡ map pos places.now }
{
    if places.len() == 1 {
        numbers[0] = number_of(places[0]);
        return;
    }
    'places: for k in 0..places.len() {
        numbers[k] = number_of(places[k]);
    }
}
