// Tests a forest that a caller hands in, and writes its postorder into a caller's array, for any integer type. The walk
// of the test climbs from each place until it meets a place that an earlier walk marked; where it meets its own mark,
// the place is above itself. The array is written last, so it stays as it was where there is no forest. Source: Liu
// 1990 (elimination tree, postorder).

ghost use Rattle.std.specs.Prelude.{◌≡◌, ◌≢◌, ◌+◌, ◌<◌, ◌^◌, ◌↔◌, ◌⊎◌, ℕ, IsTrue, IfOk, IfErr, IfSome, MatchResult};
ghost use Rattle.std.specs.Prelude.{length, map, slice_index, true};
ghost use Rattle.amd_model.specs.Input.Columns.{at};
ghost use Rattle.amd_postorder.specs.Trees.{IsElementForest, IsPostorderOf, tree_of};
ghost use Rattle.amd_c_calls.specs.Forests.{AreParents, HasForestPlaces, HasNoCycle, IsSoundForest};
ghost use Rattle.amd_c_calls.specs.Forests.{LeavesPostorder, MarksRise};
ghost use Rattle.amd_c_calls.specs.Forests.{StaysInside, parent_in};

use crate::patterns::has_row_places;
use amd_postorder::postorder::postorder;
use amd_types::amd::Status;
use amd_types::internal::value_at;
use amd_types::signed::SignedIndex;
use std::alloc::Global;

/// The number at a place of a list of the caller's type, where an `isize` has it.
fn signed_at<I: SignedIndex>(numbers: &[I], place: usize) -> Option<isize>
    requires { place < length numbers.now }
    ensures { IfSome result (λ number. number ≡ at (map I.value numbers.now) place) }
{
    value_at(numbers, place).to_signed()
}

/// The numbers of a list of the caller's type.
///
/// # Errors
///
/// `OutOfMemory` where a request was refused, or a number is too large.
fn signed_of<I: SignedIndex>(alloc: Global, numbers: &[I]) -> Result<Vec<isize, Global>, Status>
    ensures numbers { IfOk result (λ v. v.items ≡ map I.value numbers.now) }
    ensures refused { IfErr result (λ e. e ≡ Status.OutOfMemory) }
{
    let mut signed = Vec::with_capacity(alloc, numbers.len())?;
    'numbers: for k in 0..numbers.len() {
        let Some(number) = signed_at(numbers, k) else {
            return Err(Status::OutOfMemory);
        };
        signed.push(number)?;
    }
    Ok(signed)
}

/// The number at a place, as one of the caller's type, where the type has it.
fn number_from<I: SignedIndex>(signed: &[isize], place: usize) -> Option<I>
    requires { place < length signed.now }
    ensures { IfSome result (λ number. I.value number ≡ at signed.now place) }
{
    I::from_signed(signed[place])
}

/// The numbers as those of the caller's type.
///
/// # Errors
///
/// `OutOfMemory` where a request was refused, or a number is too large for the type.
fn numbers_from<I: SignedIndex>(alloc: Global, signed: &[isize]) -> Result<Vec<I, Global>, Status>
    ensures numbers { IfOk result (λ v. map I.value v.items ≡ signed.now) }
    ensures refused { IfErr result (λ e. e ≡ Status.OutOfMemory) }
{
    let mut numbers = Vec::with_capacity(alloc, signed.len())?;
    'numbers: for k in 0..signed.len() {
        let Some(number) = number_from(signed, k) else {
            return Err(Status::OutOfMemory);
        };
        numbers.push(number)?;
    }
    Ok(numbers)
}

/// Whether a place holds no element, or one that has a size and, as parent, an element or none.
fn is_sound(e: usize, parent: &[isize], nv: &[isize], f_size: &[isize]) -> bool
    requires place { e < length parent.now }
    requires nv { length nv.now ≡ length parent.now }
    requires f_size { length f_size.now ≡ length parent.now }
    ensures { IsTrue result ↔ IsSoundForest parent.now nv.now f_size.now e }
{
    if nv[e] <= 0 {
        return true;
    }
    if f_size[e] < 0 {
        return false;
    }
    match usize::try_from(parent[e]) {
        Ok(p) => p < nv.len() && nv[p] > 0,
        Err(_) => parent[e] == -1,
    }
}

/// Whether each place is sound.
fn are_sound(parent: &[isize], nv: &[isize], f_size: &[isize]) -> bool
    requires nv { length nv.now ≡ length parent.now }
    requires f_size { length f_size.now ≡ length parent.now }
    ensures { IsTrue result ↔ ((e : ℕ) → e < length parent.now → IsSoundForest parent.now nv.now f_size.now e) }
{
    'places: for e in 0..parent.len() {
        if !is_sound(e, parent, nv, f_size) {
            return false;
        }
    }
    true
}

/// The parent of the element at a place, if there are both.
fn parent_of(e: usize, parent: &[isize], nv: &[isize]) -> Option<usize>
    requires place { e < length parent.now }
    requires nv { length nv.now ≡ length parent.now }
    ensures { result ≡ parent_in parent.now nv.now e }
{
    if nv[e] > 0 {
        usize::try_from(parent[e]).ok()
    } else {
        None
    }
}

/// The parents of the elements, as places.
///
/// # Errors
///
/// `OutOfMemory` where a request was refused.
fn parents_of(
    alloc: Global,
    parent: &[isize],
    nv: &[isize],
) -> Result<Vec<Option<usize>, Global>, Status>
    requires nv { length nv.now ≡ length parent.now }
    ensures parents { IfOk result (λ v. AreParents parent.now nv.now v.items) }
    ensures refused { IfErr result (λ e. e ≡ Status.OutOfMemory) }
{
    let mut above = Vec::with_capacity(alloc, parent.len())?;
    'places: for e in 0..parent.len() {
        above.push(parent_of(e, parent, nv))?;
    }
    Ok(above)
}

/// Marks the places from `start` up with the number of this walk, to the first one that has a mark or to the top.
/// Returns whether it met no mark of its own.
fn climb(start: usize, walk: usize, above: &[Option<usize>], marks: &mut [usize]) -> bool
    requires start { start < length above.now }
    requires walk { 0 < walk }
    requires inside { StaysInside above.now }
    requires marks { MarksRise above.now walk marks.old }
    ensures marks { IsTrue result → MarksRise above.now (walk + 1) marks.new }
    ensures start { IsTrue result → slice_index marks.new start ≢ 0 }
    ensures kept { (e : ℕ) → slice_index marks.old e ≢ 0 → slice_index marks.new e ≢ 0 }
    ensures cycle { IsTrue result ⊎ ¬ (HasNoCycle above.now) }
{
    let mut place = start;
    'up: while marks[place] == 0 {
        marks[place] = walk;
        match above[place] {
            Some(next) => place = next,
            None => return true,
        }
    }
    marks[place] != walk
}

/// Whether no place is above itself.
///
/// # Errors
///
/// `OutOfMemory` where a request was refused.
fn has_no_cycle(alloc: Global, above: &[Option<usize>]) -> Result<bool, Status>
    requires inside { StaysInside above.now }
    requires room { length above.now < 2 ^ 63 }
    ensures { MatchResult result (λ b. IsTrue b ↔ HasNoCycle above.now) (λ e. e ≡ Status.OutOfMemory) }
{
    let mut marks = vec![in alloc; 0; above.len()]?;
    'places: for e in 0..above.len() {
        if !climb(e, e + 1, above, &mut marks) {
            return Ok(false);
        }
    }
    Ok(true)
}

/// Whether three lists are a forest.
///
/// # Errors
///
/// `OutOfMemory` where a request was refused.
fn is_forest(
    alloc: Global,
    parent: &[isize],
    nv: &[isize],
    f_size: &[isize],
) -> Result<bool, Status>
    requires nv { length nv.now ≡ length parent.now }
    requires f_size { length f_size.now ≡ length parent.now }
    requires room { length parent.now < 2 ^ 63 }
    ensures { MatchResult result (λ b. IsTrue b ↔ IsElementForest (length parent.now) parent.now nv.now f_size.now)
        (λ e. e ≡ Status.OutOfMemory) }
{
    if !are_sound(parent, nv, f_size) {
        return Ok(false);
    }
    let above = parents_of(alloc, parent, nv)?;
    has_no_cycle(alloc, &above)
}

/// The postorder of a forest, as numbers of the caller's type.
///
/// # Errors
///
/// `Invalid` exactly where the lists are no forest; `OutOfMemory` where a request was refused, or a number is too
/// large.
fn postorder_of<I: SignedIndex>(
    alloc: Global,
    parent: &[I],
    nv: &[I],
    f_size: &[I],
) -> Result<Vec<I, Global>, Status>
    requires nv { length nv.now ≡ length parent.now }
    requires f_size { length f_size.now ≡ length parent.now }
    ensures forest { IfOk result (λ v. IsElementForest (length parent.now) (map I.value parent.now) (map I.value nv.now)
        (map I.value f_size.now)) }
    ensures postorder { IfOk result (λ v. IsPostorderOf (tree_of (length parent.now) (map I.value parent.now)
        (map I.value nv.now) (map I.value f_size.now)) (map I.value v.items)) }
    ensures refused { IfErr result (λ e. (e ≡ Status.OutOfMemory) ⊎ ((e ≡ Status.Invalid) ×
        ¬ (IsElementForest (length parent.now) (map I.value parent.now) (map I.value nv.now)
        (map I.value f_size.now)))) }
{
    let above = signed_of(alloc, parent)?;
    let rows = signed_of(alloc, nv)?;
    let sizes = signed_of(alloc, f_size)?;
    if above.len() >= 1 << 63 {
        return Err(Status::OutOfMemory);
    }
    if !is_forest(alloc, &above, &rows, &sizes)? {
        return Err(Status::Invalid);
    }
    let places = postorder(alloc, above.len(), &above, &rows, &sizes)?;
    numbers_from(alloc, &places)
}

/// Whether each of four arrays has `n` places.
fn have_forest_places<I: SignedIndex>(
    n: I,
    parent: &[I],
    nv: &[I],
    f_size: &[I],
    order: &[I],
) -> bool
    ensures { IsTrue result ↔ HasForestPlaces (I.value n) (map I.value parent.now) (map I.value nv.now)
        (map I.value f_size.now) (map I.value order.now) }
{
    has_row_places(n, parent)
        && has_row_places(n, nv)
        && has_row_places(n, f_size)
        && has_row_places(n, order)
}

/// Writes the place of each element in the postorder of a forest, and -1 for what is no element; returns the status.
///
/// The lists are as those of `postorder` of the crate `amd_postorder`, and are tested. Each array has `n` places.
///
/// # Errors
///
/// A status that is an error; `order` stays as it was. `Invalid` exactly where an array has not `n` places, or the
/// lists are no forest: an element has a negative size, or a parent that is neither -1 nor an element, or is above
/// itself. `OutOfMemory` where a request was refused, or a number does not fit.
///
/// Source: Amestoy, Davis and Duff 2004.
pub fn postorder_into<I: SignedIndex>(
    alloc: Global,
    n: I,
    parent: &[I],
    nv: &[I],
    f_size: &[I],
    order: &mut [I],
) -> Status
    ensures { LeavesPostorder (I.value n) (map I.value parent.now) (map I.value nv.now) (map I.value f_size.now)
        (map I.value order.old) (map I.value order.new) result }
{
    if !have_forest_places(n, parent, nv, f_size, order) {
        return Status::Invalid;
    }
    match postorder_of(alloc, parent, nv, f_size) {
        Ok(places) => {
            order.copy_from_slice(&places);
            Status::OK
        }
        Err(status) => status,
    }
}
