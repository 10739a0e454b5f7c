// The place of each row in an order that a caller hands in, and whether it is one: a permutation of the rows.

ghost use Rattle.std.specs.Prelude.{◌≡◌, ◌<◌, true, false, ℕ, List, length, map, slice_index, IfOk, MatchOption};
ghost use Rattle.amd_factor.specs.Orders.{Permutes};
ghost use Rattle.amd_types.specs.Naturals.{naturals};
ghost use Rattle.amd_factor.specs.Places.{ArePlaces};

use amd_types::index::Index;
use amd_types::internal::{to_count, value_at};
use std::alloc::{AllocError, Allocator};

/// Writes the place of each row in the list `p`, and returns whether that lists each number below the number of places,
/// once: row `p[k]` has place `k`. Before, each place holds how many places there are, which says that its row was not
/// met yet; what they hold after a `false` means nothing.
pub fn place_rows<I: Index>(p: &[I], places: &mut [usize]) -> bool
    requires unmet { (k : ℕ) → k < length places.old → slice_index places.old k ≡ length places.old }
    ensures permutation { result ≡ true →
        Permutes (length places.old) (map I.value p.now) (naturals (map I.value p.now)) }
    ensures places { result ≡ true → ArePlaces (length places.old) (naturals (map I.value p.now)) places.new }
    ensures none { result ≡ false → (rows : List ℕ) → Permutes (length places.old) (map I.value p.now) rows → ⊥ }
{
    let size = places.len();
    if p.len() != size {
        return false;
    }
    'rows: for k in 0..size {
        let Some(row) = to_count(value_at(p, k)) else {
            return false;
        };
        if row >= size || places[row] != size {
            return false;
        }
        places[row] = k;
    }
    true
}

/// The place of each of `size` rows in the list `p`: row `p[k]` has place `k`. `None` where `p` does not list each
/// number below `size`, once: it is longer or shorter, or has a number that is negative, too large or repeated. Any
/// arguments are allowed.
///
/// # Errors
///
/// A refused request for memory. None is made for a list of another length.
pub fn places<I: Index, A: Allocator>(
    alloc: A,
    size: usize,
    p: &[I],
) -> Result<Option<Vec<usize, A>>, AllocError>
    ensures permutation { IfOk result (λ r. MatchOption r (Unit {0})
        (λ places. Permutes size (map I.value p.now) (naturals (map I.value p.now)))) }
    ensures places { IfOk result (λ r. MatchOption r (Unit {0})
        (λ places. ArePlaces size (naturals (map I.value p.now)) places.items)) }
    ensures none { IfOk result (λ r. MatchOption r ((rows : List ℕ) → Permutes size (map I.value p.now) rows → ⊥)
        (λ places. Unit {0})) }
{
    if p.len() != size {
        return Ok(None);
    }
    let mut places = vec![in alloc; size; size]?;
    if !place_rows(p, &mut places) {
        return Ok(None);
    }
    Ok(Some(places))
}
