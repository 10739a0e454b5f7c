// From a listing of the rows to the two permutations that a caller is given.

ghost use Rattle.std.specs.Prelude.{ℕ, ◌≡◌, ◌<◌, ◌<ℤ◌, IfOk, length, map, pos, slice_index};
ghost use Rattle.amd_model.specs.Input.Columns.{at};
ghost use Rattle.amd_model.specs.Listing.{ListsEachRow};
ghost use Rattle.amd_types.specs.Permutations.{AreInverse};

use crate::index::Index;
use crate::internal::from_count;
use std::alloc::{AllocError, Allocator};

/// The rows, which are below `n`, as numbers of the caller's type.
fn numbers_of<I: Index, A: Allocator>(
    alloc: A,
    n: I,
    rows: &[usize],
) -> Result<Vec<I, A>, AllocError>
    requires fits { I.fits (I.value n) }
    requires below { (k : ℕ) → k < length rows.now → pos (slice_index rows.now k) <ℤ I.value n }
    ensures { IfOk result (λ v. map I.value v.items ≡ map pos rows.now) }
{
    let mut numbers = Vec::with_capacity(alloc, rows.len())?;
    'rows: for k in 0..rows.len() {
        let Some(number) = from_count(rows[k]) else {
            unreachable!();
        };
        numbers.push(number)?;
    }
    Ok(numbers)
}

/// The place of each row in the listing, written over a copy of any list of that length.
fn places_of<I: Index, A: Allocator>(
    alloc: A,
    n: I,
    rows: &[usize],
    any: &[I],
) -> Result<Vec<I, A>, AllocError>
    requires fits { I.fits (I.value n) }
    requires size { I.value n ≡ pos (length rows.now) }
    requires room { length any.now ≡ length rows.now }
    requires listing { ListsEachRow (length rows.now) rows.now }
    ensures room { IfOk result (λ v. length v.items ≡ length rows.now) }
    ensures places { IfOk result (λ v. (k : ℕ) → k < length rows.now →
        at (map I.value v.items) (slice_index rows.now k) ≡ pos k) }
{
    let mut places = Vec::from_slice(alloc, any)?;
    'rows: for k in 0..rows.len() {
        let Some(place) = from_count(k) else {
            unreachable!();
        };
        places[rows[k]] = place;
    }
    Ok(places)
}

/// The listing as a permutation of the caller's numbers, and its inverse.
///
/// `rows` has `n` places and names each number below `n`, once. Both results have `n` numbers: the first has `rows[k]`
/// at place `k`, and the second has `k` at place `rows[k]`.
///
/// # Errors
///
/// `AllocError` where a request for memory was refused.
///
/// Source: Amestoy, Davis and Duff 2004.
pub fn inverse_pair<I: Index, A: Allocator + Copy>(
    alloc: A,
    n: I,
    rows: &[usize],
) -> Result<(Vec<I, A>, Vec<I, A>), AllocError>
    requires fits { I.fits (I.value n) }
    requires size { I.value n ≡ pos (length rows.now) }
    requires listing { ListsEachRow (length rows.now) rows.now }
    ensures listed { IfOk result (λ r. map I.value r.0.items ≡ map pos rows.now) }
    ensures inverse { IfOk result (λ r. AreInverse (length rows.now) (map I.value r.0.items) (map I.value r.1.items)) }
{
    let p = numbers_of(alloc, n, rows)?;
    let p_inv = places_of(alloc, n, rows, &p)?;
    Ok((p, p_inv))
}
